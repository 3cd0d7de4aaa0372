//! What the transformations of proofs work on.
ghost use Rattle.std.specs.Prelude.{◌≡◌, [], IfOk};
ghost use Rattle.std.specs.Borrow.{sem};
ghost use Rattle.std.specs.Coded.{Coded-set};
ghost use mathlib.Core.List.{IsPrefix};
ghost use Rattle.turn_log.specs.Rules.{longer};
ghost use Rattle.memo_table.specs.Memos.{home_of};
ghost use Rattle.proof_graph.specs.Graphs.{history};

use crate::known::Images;
use arena::Arena;
use arena_graph::ProofNumbers;
use memo_table::{Memo, MemoPass};
use proof_graph::{Graph, GraphPass};
use std::alloc::{AllocError, Global};
use std::mem::forget;
use std::sync::Wait;

/// What the transformations of proofs work on: the graph of checked proofs, and the table of their images under maps. Threads share it, each
/// with a pass of its own. It can't be dropped, and is ended by `close` or `leave`.
pub struct Bench {
    pub(crate) graph: Graph,
    pub(crate) images: Memo<Images>,
    // The table is one of this graph.
    ghost home: { home_of images ≡ graph } by { Coded-set graph-code _ _ },
}

/// What is needed to put proofs into a bench. It keeps an arena in which proofs are transformed, with those that came in from the graph or
/// went out to it, and what was found of them on the way: their free variables, and their images under maps.
#[derive(Drop)]
pub struct BenchPass {
    pub(crate) graph: GraphPass,
    pub(crate) images: MemoPass<Images>,
    pub(crate) arena: Arena,
    pub(crate) numbers: ProofNumbers,
}

impl Bench {
    ghost use Rattle.proof_subst.specs.Benches.{graph_of, pass_in, images_in, arena_in, IsBenchPassOf};
    ghost use Rattle.proof_subst.specs.Lending.{LendsGraphPass, LendsArena};

    /// A bench whose graph has no node and whose table has no image, and its pass. Where there is no memory for the table, the graph is
    /// closed, which is why it takes a runtime.
    pub fn new<R: Wait>(rt: &R, alloc: Global) -> Result<(Bench, BenchPass), AllocError>
        ensures pass { IfOk result (λ made. IsBenchPassOf made.0 made.1) }
        ensures history { IfOk result (λ made. history (pass_in made.1) ≡ []) }
        ensures images { IfOk result (λ made. images_in made.1 ≡ []) }
        ensures empty { IfOk result (λ made. arena_in made.1 ≡ []) }
    {
        let (graph, graph_pass) = Graph::new(alloc)?;
        let Ok((images, images_pass)) = Memo::<Images>::new(alloc, &graph) else {
            graph.close(rt, graph_pass);
            return Err(AllocError);
        };
        let pass = BenchPass {
            graph: graph_pass,
            images: images_pass,
            arena: Arena::new(alloc),
            numbers: ProofNumbers::new(alloc),
        };
        Ok((Bench { graph, images }, pass))
    }

    /// Another pass of the bench, as for another thread. Both have seen the same of the graph and of the table. The new one has an empty
    /// arena.
    pub fn split(&self, alloc: Global, pass: &mut BenchPass) -> BenchPass
        requires { IsBenchPassOf self.now pass.old }
        ensures of { IsBenchPassOf self.now result }
        ensures seen { history (pass_in result) ≡ history (pass_in pass.old) }
        ensures images { images_in result ≡ images_in pass.old }
        ensures empty { arena_in result ≡ [] }
        ensures same { history (pass_in pass.new) ≡ history (pass_in pass.old) }
        ensures images_same { images_in pass.new ≡ images_in pass.old }
        ensures arena_stays { arena_in pass.new ≡ arena_in pass.old }
        ensures pass_stays { IsBenchPassOf self.now pass.new }
    {
        BenchPass {
            graph: self.graph.split(&mut pass.graph),
            images: self.images.split(&mut pass.images),
            arena: Arena::new(alloc),
            numbers: ProofNumbers::new(alloc),
        }
    }

    /// Takes another pass of the bench in, whose arena is dropped. Of the two histories of the graph the one begins the other, and the
    /// pass has then seen the longer. So it is with the two lists of images.
    pub fn join(&self, pass: &mut BenchPass, other: BenchPass)
        requires pass_of { IsBenchPassOf self.now pass.old }
        requires other_of { IsBenchPassOf self.now other }
        ensures longer { history (pass_in pass.new) ≡ longer (history (pass_in pass.old)) (history (pass_in other)) }
        ensures first { IsPrefix (history (pass_in pass.old)) (history (pass_in pass.new)) }
        ensures second { IsPrefix (history (pass_in other)) (history (pass_in pass.new)) }
        ensures images_longer { images_in pass.new ≡ longer (images_in pass.old) (images_in other) }
        ensures images_first { IsPrefix (images_in pass.old) (images_in pass.new) }
        ensures images_second { IsPrefix (images_in other) (images_in pass.new) }
        ensures arena_stays { arena_in pass.new ≡ arena_in pass.old }
        ensures pass_stays { IsBenchPassOf self.now pass.new }
    {
        let BenchPass {
            graph,
            images,
            arena: _arena,
            numbers: _numbers,
        } = other;
        self.graph.join(&mut pass.graph, graph);
        self.images.join(&mut pass.images, images);
    }

    /// Ends the bench with its graph and its table.
    pub fn close<R: Wait>(self, rt: &R, pass: BenchPass)
        requires { IsBenchPassOf self pass }
    {
        let Bench { graph, images } = self;
        let BenchPass {
            graph: graph_pass,
            images: images_pass,
            arena: _arena,
            numbers: _numbers,
        } = pass;
        images.close(rt, images_pass);
        graph.close(rt, graph_pass);
    }

    /// Ends the bench as `close` does, but gives no memory back: for a process that ends next, which the system takes all memory from.
    pub fn leave<R: Wait>(self, rt: &R, pass: BenchPass)
        requires { IsBenchPassOf self pass }
    {
        let Bench { graph, images } = self;
        let BenchPass {
            graph: graph_pass,
            images: images_pass,
            arena,
            numbers,
        } = pass;
        images.leave(rt, images_pass);
        graph.leave(rt, graph_pass);
        forget(arena);
        forget(numbers);
    }

    /// The graph.
    pub fn graph(&self) -> &Graph
        ensures { result.now ≡ graph_of self.now }
    {
        &self.graph
    }

    /// The pass of the graph.
    pub fn graph_pass(pass: &mut BenchPass) -> &mut GraphPass
        ensures* writes_back { sem 𝓛 (LendsGraphPass pass.entry result) }
        ensures value { result.now ≡ pass_in pass.old }
    {
        &mut pass.graph
    }

    /// The arena of the pass. Things may be put into it; what stands in it stays.
    pub fn arena(pass: &mut BenchPass) -> &mut Arena
        ensures* writes_back { sem 𝓛 (LendsArena pass.entry result) }
        ensures value { result.now ≡ arena_in pass.old }
    {
        &mut pass.arena
    }
}
