//! Images of clauses.
ghost use Rattle.std.specs.Prelude.{◌≡◌, IfOk};
ghost use Rattle.std.specs.FinMap as fin;
ghost use Rattle.substitution.specs.Image.{IsFormedMap};
ghost use Rattle.lk_rules.specs.Sequents.{image_sequent};

use lk_rules::Sequent;
use std::alloc::{AllocError, Global};
use substitution::Subst;

/// The image of a clause, which is shared where the map has no term.
pub(crate) fn image_by(alloc: Global, clause: &Sequent, map: &Subst) -> Result<Sequent, AllocError>
    requires { IsFormedMap (fin.get map.now) }
    ensures { IfOk result (λ image. image ≡ image_sequent (fin.get map.now) clause.now) }
{
    if map.is_empty() {
        let same = clause.copy()?;
        return Ok(same);
    }
    let image = clause.image(alloc, map)?;
    Ok(image)
}
