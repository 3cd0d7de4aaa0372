//! An order of sets of terms, in which two sets are mostly told apart by one look.
ghost use Rattle.std.specs.Prelude.{◌≡◌, refl};
ghost use Rattle.std.specs.Ordering.{eq_by_cmp, as_partial_cmp};
ghost use Rattle.std.specs.Cmp.{partial_equiv_from_equiv, partial_order_from_total};
ghost use Rattle.std.proofs.lemmas.Cmp.{eq_by_cmp_equiv};
ghost use Rattle.herbrand_laws.specs.Candidates.{same_terms};
ghost use Rattle.delta_rows.specs.ValueOrder.{values_cmp, values_total, smaller_cmp as smaller_order};

use crate::values::Values;
use std::cmp::Ordering;

impl PartialEq for Values {
    ghost eq = { eq_by_cmp values_cmp };

    ghost laws = { partial_equiv_from_equiv (eq_by_cmp_equiv values_total) };

    #[tactic(auto, using(crate::proofs::ValueTies::same_by_cmp))]
    fn eq(&self, other: &Values) -> bool
        ensures value { result ≡ eq_by_cmp values_cmp self.now other.now }
        ensures same { result ≡ same_terms self.now other.now }
    {
        self.cmp(other).is_eq()
    }
}

impl Eq for Values {
    ghost laws = { eq_by_cmp_equiv values_total };
}

impl PartialOrd for Values {
    ghost partial_cmp = { as_partial_cmp values_cmp };

    ghost laws = { partial_order_from_total values_total };

    fn partial_cmp(&self, other: &Values) -> Option<Ordering> {
        Some(self.cmp(other))
    }
}

/// Sets of terms are ordered by fingerprint, and those of one fingerprint by their rising lists.
impl Ord for Values {
    ghost cmp = { values_cmp };

    ghost total = { values_total };

    ghost matches_partial_cmp = { λ x y. refl };

    ghost matches_eq = { λ x y. refl };

    fn cmp(&self, other: &Values) -> Ordering
        ensures { result ≡ values_cmp self.now other.now }
    {
        match self.fingerprint().cmp(&other.fingerprint()) {
            Ordering::Equal => self.as_slice().cmp(other.as_slice()),
            unequal => unequal,
        }
    }
}

/// The order of sets by the number of terms, and then by their rising lists.
pub fn compare_sizes(first: &Values, second: &Values) -> Ordering
    ensures { result ≡ smaller_order first.now second.now }
{
    let first = first.as_slice();
    let second = second.as_slice();
    match first.len().cmp(&second.len()) {
        Ordering::Equal => first.cmp(second),
        unequal => unequal,
    }
}
