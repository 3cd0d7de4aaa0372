//! What tells soon that no atom of one list has a unifier with one of another: none has a variable, and no two are equal.
ghost use Rattle.std.specs.Prelude.{◌≡◌, true};
ghost use Rattle.std.specs.List.{list_any};
ghost use Rattle.fol.specs.Facts.{is_open};
ghost use Rattle.res_prover.specs.GroundAtoms.{whole_marks as marks_of_wholes, AreGroundMarksOf, AreApart};

use crate::marks::bit;
use fol::Formula;

/// The marks of a list of atoms.
#[derive(Clone, Copy)]
pub(crate) struct GroundMarks {
    /// Whether one has a variable.
    pub has_free: bool,
    /// A bit for each atom as a whole.
    pub wholes: u64,
}

/// Whether one of the atoms has a variable.
pub(crate) fn some_free(atoms: &[Formula]) -> bool
    ensures { result ≡ list_any is_open atoms.now }
{
    atoms.iter().any(|atom| atom.has_free())
}

fn whole_marks(atoms: &[Formula]) -> u64
    ensures { result ≡ marks_of_wholes atoms.now }
{
    let [first, rest @ ..] = atoms else {
        return 0;
    };
    bit(first.fingerprint()) | whole_marks(rest)
}

/// The marks of the atoms.
pub(crate) fn ground_marks(atoms: &[Formula]) -> GroundMarks
    ensures { AreGroundMarksOf atoms.now result }
{
    let has_free = some_free(atoms);
    let wholes = whole_marks(atoms);
    GroundMarks { has_free, wholes }
}

/// Whether no atom of a list with the first marks has a unifier with one of a list with the second, as these tell.
pub(crate) fn are_apart(first: GroundMarks, second: GroundMarks) -> bool
    ensures { result ≡ true → AreApart first second }
{
    !first.has_free && !second.has_free && first.wholes & second.wholes == 0
}
