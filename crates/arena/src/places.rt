//! Tables of numbers by place.
ghost use Rattle.std.specs.Prelude.{◌≡◌, ◌≤◌, ℕ, None, Some, cond, get_or, length, nat_eq, IfErr, IfOk};

use std::alloc::AllocError;

/// The number that is kept at a place.
pub(crate) fn entry(table: &[Option<u32>], place: u32) -> Option<u32>
    ensures { result ≡ get_or table.now place None }
{
    match table.get(place as usize) {
        Some(entry) => *entry,
        None => None,
    }
}

/// Keeps a number at a place.
#[tactic(auto, using(crate::proofs::Entries::entry_set))]
pub(crate) fn set_entry(
    table: &mut Vec<Option<u32>>,
    place: u32,
    number: u32,
) -> Result<(), AllocError>
    ensures kept { (n : ℕ) → IfOk result (λ _. get_or table.new.items n None ≡ cond (nat_eq n place) (Some number) (get_or table.old.items n None)) }
    ensures unchanged { (n : ℕ) → IfErr result (λ _. get_or table.new.items n None ≡ get_or table.old.items n None) }
{
    let at = place as usize;
    fill(table, at + 1)?;
    table[at] = Some(number);
    Ok(())
}

// Makes places for entries, where nothing is kept.
#[tactic(auto, using(crate::proofs::Entries::none_more))]
fn fill(table: &mut Vec<Option<u32>>, places: usize) -> Result<(), AllocError>
    ensures places { IfOk result (λ _. places ≤ length table.new.items) }
    ensures unchanged { (n : ℕ) → get_or table.new.items n None ≡ get_or table.old.items n None }
{
    while table.len() < places {
        table.push(None)?;
    }
    Ok(())
}
