//! Lists in which a symbol is defined twice.
ghost use Rattle.std.specs.Prelude.{◌≡◌, [], IfOk};
ghost use Rattle.def_laws.specs.Marking.{first_like};

use fol::Predicate;
use std::alloc::{AllocError, Global};
use std::collections::BTreeSet;

/// The first place at which a symbol has the name and the number of arguments of an earlier one, if there is any. It takes O(n log n)
/// comparisons.
pub fn first_twice(alloc: Global, definitions: &[Predicate]) -> Result<Option<usize>, AllocError>
    ensures { IfOk result (λ place. place ≡ first_like [] definitions.now) }
{
    let mut seen = BTreeSet::new(alloc);
    for (place, definition) in definitions.iter().enumerate() {
        if seen.contains(&definition.symbol) {
            return Ok(Some(place));
        }
        seen.insert(definition.symbol.copy()?)?;
    }
    Ok(None)
}
