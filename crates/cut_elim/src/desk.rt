//! What elimination works on.
ghost use Rattle.std.specs.Prelude.{◌≡◌, [], IfOk, OnOk, IfSome, IsSome};
ghost use Rattle.std.specs.Borrow.{sem};
ghost use Rattle.std.specs.Coded.{Coded-set};
ghost use mathlib.Core.List.{IsPrefix};
ghost use Rattle.turn_log.specs.Rules.{longer};
ghost use Rattle.memo_table.specs.Memos.{home_of};
ghost use Rattle.proof_graph.specs.Graphs.{IsOf};
ghost use Rattle.proof_graph.specs.contracts.graph.Graph as graph_contract;
ghost use Rattle.proof_subst.specs.Benches.{graph_of, images_in, arena_in};

use crate::begun::Begun;
use crate::known::{Elimination, Eliminations, Reduced};
use memo_table::{Memo, MemoPass};
use proof_graph::ProofRef;
use proof_subst::{Bench, BenchPass};
use std::alloc::{AllocError, Global};
use std::sync::Wait;

/// What elimination works on: a bench, and the table of the eliminations in its proofs. Threads share it, each with a pass of its own. It
/// can't be dropped, and is ended by `close` or `leave`.
pub struct Desk {
    bench: Bench,
    eliminations: Memo<Eliminations>,
    begun: Begun,
    // The table is one of the bench's graph.
    ghost home: { home_of eliminations ≡ graph_of bench } by { Coded-set graph_contract.the_row.coded _ _ },
}

/// What is needed to put proofs into the bench of a desk, and eliminations into its table.
#[derive(Drop)]
pub struct DeskPass {
    bench: BenchPass,
    eliminations: MemoPass<Eliminations>,
}

impl Desk {
    ghost use Rattle.cut_elim.specs.Desks.{bench_of, pass_in, history_in, eliminations_in, HasElimination, IsDeskPassOf};
    ghost use Rattle.cut_elim.specs.Eliminations.{IsReduced};
    ghost use Rattle.cut_elim.specs.Lending.{LendsBenchPass};

    /// A desk whose bench has no proof and whose table has no elimination, and its pass. Where there is no memory for the table, the bench
    /// is closed, which is why it takes a runtime.
    pub fn new<R: Wait>(rt: &R, alloc: Global) -> Result<(Desk, DeskPass), AllocError>
        ensures pass { IfOk result (λ made. IsDeskPassOf made.0 made.1) }
        ensures history { IfOk result (λ made. history_in made.1 ≡ []) }
        ensures images { IfOk result (λ made. images_in (pass_in made.1) ≡ []) }
        ensures eliminations { IfOk result (λ made. eliminations_in made.1 ≡ []) }
    {
        let (bench, bench_pass) = Bench::new(rt, alloc)?;
        let Ok((eliminations, eliminations_pass)) = Memo::<Eliminations>::new(alloc, bench.graph())
        else {
            bench.close(rt, bench_pass);
            return Err(AllocError);
        };
        let pass = DeskPass {
            bench: bench_pass,
            eliminations: eliminations_pass,
        };
        Ok((
            Desk {
                bench,
                eliminations,
                begun: Begun::new(alloc),
            },
            pass,
        ))
    }

    /// Another pass of the desk, as for another thread. Both have seen the same of the graph and of the tables. The new one has an empty
    /// arena.
    pub fn split(&self, alloc: Global, pass: &mut DeskPass) -> DeskPass
        requires { IsDeskPassOf self.now pass.old }
        ensures of { IsDeskPassOf self.now result }
        ensures seen { history_in result ≡ history_in pass.old }
        ensures images { images_in (pass_in result) ≡ images_in (pass_in pass.old) }
        ensures eliminations { eliminations_in result ≡ eliminations_in pass.old }
        ensures empty { arena_in (pass_in result) ≡ [] }
        ensures same { history_in pass.new ≡ history_in pass.old }
        ensures images_same { images_in (pass_in pass.new) ≡ images_in (pass_in pass.old) }
        ensures eliminations_same { eliminations_in pass.new ≡ eliminations_in pass.old }
        ensures arena_stays { arena_in (pass_in pass.new) ≡ arena_in (pass_in pass.old) }
        ensures pass_stays { IsDeskPassOf self.now pass.new }
    {
        DeskPass {
            bench: self.bench.split(alloc, &mut pass.bench),
            eliminations: self.eliminations.split(&mut pass.eliminations),
        }
    }

    /// Takes another pass of the desk in. Of the two histories of the graph the one begins the other, and the pass has then seen the
    /// longer. So it is with the lists of images and of eliminations.
    pub fn join(&self, pass: &mut DeskPass, other: DeskPass)
        requires pass_of { IsDeskPassOf self.now pass.old }
        requires other_of { IsDeskPassOf self.now other }
        ensures longer { history_in pass.new ≡ longer (history_in pass.old) (history_in other) }
        ensures first { IsPrefix (history_in pass.old) (history_in pass.new) }
        ensures second { IsPrefix (history_in other) (history_in pass.new) }
        ensures images_longer { images_in (pass_in pass.new) ≡ longer (images_in (pass_in pass.old)) (images_in (pass_in other)) }
        ensures images_first { IsPrefix (images_in (pass_in pass.old)) (images_in (pass_in pass.new)) }
        ensures images_second { IsPrefix (images_in (pass_in other)) (images_in (pass_in pass.new)) }
        ensures eliminations_longer { eliminations_in pass.new ≡ longer (eliminations_in pass.old) (eliminations_in other) }
        ensures eliminations_first { IsPrefix (eliminations_in pass.old) (eliminations_in pass.new) }
        ensures eliminations_second { IsPrefix (eliminations_in other) (eliminations_in pass.new) }
        ensures pass_stays { IsDeskPassOf self.now pass.new }
    {
        let DeskPass {
            bench,
            eliminations,
        } = other;
        self.bench.join(&mut pass.bench, bench);
        self.eliminations.join(&mut pass.eliminations, eliminations);
    }

    /// Ends the desk with its bench and its table.
    pub fn close<R: Wait>(self, rt: &R, pass: DeskPass)
        requires { IsDeskPassOf self pass }
    {
        let Desk {
            bench,
            eliminations,
            begun: _,
        } = self;
        let DeskPass {
            bench: bench_pass,
            eliminations: eliminations_pass,
        } = pass;
        eliminations.close(rt, eliminations_pass);
        bench.close(rt, bench_pass);
    }

    /// Ends the desk as `close` does, but gives no memory back: for a process that ends next, which the system takes all memory from.
    pub fn leave<R: Wait>(self, rt: &R, pass: DeskPass)
        requires { IsDeskPassOf self pass }
    {
        let Desk {
            bench,
            eliminations,
            begun: _,
        } = self;
        let DeskPass {
            bench: bench_pass,
            eliminations: eliminations_pass,
        } = pass;
        eliminations.leave(rt, eliminations_pass);
        bench.leave(rt, bench_pass);
    }

    /// The bench.
    pub fn bench(&self) -> &Bench
        ensures { result.now ≡ bench_of self.now }
    {
        &self.bench
    }

    // The eliminations that workers are at.
    pub(crate) fn begun(&self) -> &Begun {
        &self.begun
    }

    /// The pass of the bench.
    pub fn bench_pass(pass: &mut DeskPass) -> &mut BenchPass
        ensures* writes_back { sem 𝓛 (LendsBenchPass pass.entry result) }
        ensures value { result.now ≡ pass_in pass.old }
    {
        &mut pass.bench
    }

    // The elimination in a proof, where the table has it. `same` shows that what is found is of this very proof.
    pub(crate) fn look_up<R: Wait>(
        &self,
        rt: &R,
        alloc: Global,
        pass: &mut DeskPass,
        proof: &ProofRef,
    ) -> Result<Option<Reduced>, AllocError>
        requires pass_of { IsDeskPassOf self.now pass.old }
        requires of { IsOf (graph_of (bench_of self.now)) proof.now }
        ensures reduced { IfOk result (λ o. IfSome o (IsReduced (graph_of (bench_of self.now)) proof.now)) }
        ensures known { IfOk result (λ o. HasElimination pass.old proof.now.number → IsSome o) }
        ensures stands { IfOk result (λ o. IsSome o → HasElimination pass.new proof.now.number) }
        ensures grown { IsPrefix (eliminations_in pass.old) (eliminations_in pass.new) }
        ensures bench_stays { pass_in pass.new ≡ pass_in pass.old }
        ensures pass_stays { IsDeskPassOf self.now pass.new }
    {
        let graph = self.bench.graph();
        let number = proof.number();
        match self
            .eliminations
            .find(rt, alloc, &mut pass.eliminations, graph, &number)?
        {
            Some(found) if graph.same(&found.proof, proof) => Ok(Some(found.reduced)),
            _ => Ok(None),
        }
    }

    // Enters the elimination in a proof.
    pub(crate) fn note<R: Wait>(
        &self,
        rt: &R,
        pass: &mut DeskPass,
        proof: &ProofRef,
        made: &Reduced,
    ) -> Result<(), AllocError>
        requires pass_of { IsDeskPassOf self.now pass.old }
        requires of { IsOf (graph_of (bench_of self.now)) proof.now }
        requires reduced { IsReduced (graph_of (bench_of self.now)) proof.now made.now }
        ensures stands { OnOk result (HasElimination pass.new proof.now.number) }
        ensures grown { IsPrefix (eliminations_in pass.old) (eliminations_in pass.new) }
        ensures bench_stays { pass_in pass.new ≡ pass_in pass.old }
        ensures pass_stays { IsDeskPassOf self.now pass.new }
    {
        let known = Elimination {
            proof: proof.keep()?,
            reduced: Reduced {
                proof: made.proof.keep()?,
                reductions: made.reductions,
            },
        };
        self.eliminations
            .note(rt, &mut pass.eliminations, proof.number(), known)
    }
}
