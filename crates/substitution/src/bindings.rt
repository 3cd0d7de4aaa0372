//! Rising lists of bindings.
ghost use Rattle.std.specs.Prelude.{◌≡◌, T, map, length};
ghost use Rattle.std.specs.FinMap as fin;
ghost use Rattle.std.specs.List.Sorted.{IsSearchInRange};
ghost use Rattle.fol.specs.Order.{var_cmp};
ghost use Rattle.finite.specs.Place.{place};

use fol::{Term, Var};
use std::cmp::Ordering;

/// The place of the variable's binding, by binary search: `Ok` where it stands, or `Err` where it would be inserted.
pub fn search(items: &[(Var, Term)], var: &Var) -> Result<usize, usize>
    requires { T (fin.is_sorted var_cmp items.now) }
    ensures place { result ≡ place var_cmp var.now (map (λ b. b.0) items.now) }
    ensures range { IsSearchInRange result (length items.now) }
{
    let mut low = 0;
    let mut high = items.len();
    while low < high {
        let middle = low + (high - low) / 2;
        let (other, _) = &items[middle];
        match other.cmp(var) {
            Ordering::Less => low = middle + 1,
            Ordering::Equal => return Ok(middle),
            Ordering::Greater => high = middle,
        }
    }
    Err(low)
}
