//! Eliminations that are known.
ghost use Rattle.std.specs.Prelude.{◌≡◌, true, nat_eq, Some, None, is_some, IfOk, IfSome};
ghost use Rattle.std.specs.HashMap as hash;
ghost use Rattle.cut_laws.specs.Elimination.{elimination};
ghost use Rattle.arena_cells.specs.Standing.{tree_at, IsTreeAt};
ghost use Rattle.arena_cuts.specs.Tables.{IsEliminated, AreEliminated, AreFree};

use crate::fault::ElimFault;
use arena::Arena;
use cut_laws::laws;
use number_hash::ByNumber;
use std::alloc::AllocError;
use std::collections::HashMap;

/// The number of a proof without cuts, and how many contractions led to it.
#[derive(Clone, Copy, Drop)]
pub struct Reduced {
    pub proof: u32,
    pub reductions: u64,
}

// What an entry of a proof says within a budget.
fn answer(arena: &Arena, proof: u32, entry: Reduced, budget: u64) -> Result<Reduced, ElimFault>
    requires { IsEliminated arena.now proof entry }
    ensures there { IfOk result (λ made. IsTreeAt arena.now made.proof) }
    ensures ok { IfOk result (λ made. elimination (tree_at arena.now proof) budget ≡ Some (tree_at arena.now made.proof, made.reductions)) }
    ensures budget { result ≡ Err ElimFault.Budget → elimination (tree_at arena.now proof) budget ≡ None }
    ensures same { IfOk result (λ made. made ≡ entry) }
{
    let _arena = arena;
    laws::budgets();
    if budget < entry.reductions {
        return Err(ElimFault::Budget);
    }
    Ok(entry)
}

/// The elimination in a proof within a budget, where the table has it.
pub(crate) fn look_up(
    arena: &Arena,
    table: &HashMap<u32, Reduced, ByNumber>,
    proof: u32,
    budget: u64,
) -> Option<Result<Reduced, ElimFault>>
    requires { AreEliminated arena.now table.now }
    ensures there { IfSome result (λ known. IfOk known (λ made. IsTreeAt arena.now made.proof)) }
    ensures ok { IfSome result (λ known. IfOk known (λ made. elimination (tree_at arena.now proof) budget ≡ Some (tree_at arena.now made.proof, made.reductions))) }
    ensures budget { result ≡ Some (Err ElimFault.Budget) → elimination (tree_at arena.now proof) budget ≡ None }
    ensures found { is_some (hash.get nat_eq table.now proof) ≡ true → is_some result ≡ true }
    ensures free { AreFree table.now → IfSome result (λ known. IfOk known (λ made. made.reductions ≡ 0)) }
{
    match table.get(&proof) {
        Some(entry) => Some(answer(arena, proof, *entry, budget)),
        None => None,
    }
}

/// Enters the elimination in a proof.
pub(crate) fn note(
    arena: &Arena,
    table: &mut HashMap<u32, Reduced, ByNumber>,
    proof: u32,
    made: Reduced,
) -> Result<(), AllocError>
    requires tree { IsTreeAt arena.now proof }
    requires there { IsTreeAt arena.now made.proof }
    requires table { AreEliminated arena.now table.old }
    requires known { elimination (tree_at arena.now proof) made.reductions ≡ Some (tree_at arena.now made.proof, made.reductions) }
    ensures table { AreEliminated arena.now table.new }
    ensures free { AreFree table.old → made.reductions ≡ 0 → AreFree table.new }
{
    let _arena = arena;
    table.insert(proof, made)?;
    Ok(())
}
