//! The values of rows: the terms at which numbered tuples differ.
ghost use Rattle.std.specs.Prelude.{◌≡◌, ◌+◌, ◌^◌, ◌<◌, ◌≤◌, ◌∷◌, length, map, option_map, IfSome, IsNone};
ghost use Rattle.std.specs.List.{All, list_all};
ghost use Rattle.std.specs.Ordering.{eq_by_cmp};
ghost use Rattle.std.specs.Cmp.Lexicographic.{pointwise};
ghost use Rattle.fol.specs.Syntax.{nil, cons};
ghost use Rattle.fol.specs.Order.{term_cmp};
ghost use Rattle.herbrand_laws.specs.Patterns.{are_empty, common as common_of, pattern_of_terms, delta};
ghost use Rattle.arena_cells.specs.Standing.{symbol_at, term_at, IsSymbolAt, IsTermAt};
ghost use Rattle.numbered_terms.specs.Numbered.{tuple_at, tuples_at, set_at, listed_at, AreListed, IsTermSet};
ghost use Rattle.numbered_terms.specs.Walks.{terms_from, lists_from, column_of, has_head as has_head_of, have_head as have_head_of, tuple_values, term_values};

use crate::number_sets::NumberSet;
use crate::terms::NumberedTerms;
use arrayvec::ArrayVec;

// The numbers of at most four terms, side by side.
type Numbers = ArrayVec<u32, 4>;

// A first number and others.
fn side_by_side(first: u32, others: &[u32]) -> Numbers
    requires { length others.now ≤ 3 }
    ensures { result.items ≡ first ∷ others.now }
{
    let mut numbers = ArrayVec::new();
    numbers.push(first);
    for other in others {
        numbers.push(*other);
    }
    numbers
}

impl NumberedTerms {
    // Whether the same term stands at both numbers.
    #[tactic(auto, using(crate::proofs::NumberTests::term_test))]
    fn is_equal(&self, first: u32, other: u32) -> bool
        requires first { IsTermAt self.now first }
        requires other { IsTermAt self.now other }
        ensures { result ≡ eq_by_cmp term_cmp (term_at self.now first) (term_at self.now other) }
    {
        self.known();
        first == other
    }

    // Whether the others are the first term.
    fn are_equal(&self, first: u32, others: &[u32]) -> bool
        requires first { IsTermAt self.now first }
        requires others { All (IsTermAt self.now) others.now }
        ensures { result ≡ list_all (eq_by_cmp term_cmp (term_at self.now first)) (map (term_at self.now) others.now) }
    {
        for other in others {
            if !self.is_equal(first, *other) {
                return false;
            }
        }
        true
    }

    // Whether the term is an application of the symbol.
    fn has_head(&self, symbol: u32, term: u32) -> bool
        requires symbol { IsSymbolAt self.now symbol }
        requires term { IsTermAt self.now term }
        ensures { result ≡ has_head_of (symbol_at self.now symbol) (term_at self.now term) }
    {
        self.known();
        match self.node(term).symbol {
            None => false,
            Some(other) => symbol == other,
        }
    }

    // Whether the others are applications of the symbol of the first term.
    fn have_head(&self, first: u32, others: &[u32]) -> bool
        requires first { IsTermAt self.now first }
        requires others { All (IsTermAt self.now) others.now }
        ensures { result ≡ have_head_of (term_at self.now first) (map (term_at self.now) others.now) }
    {
        let Some(symbol) = self.node(first).symbol else {
            return false;
        };
        for other in others {
            if !self.has_head(symbol, *other) {
                return false;
            }
        }
        true
    }

    // The argument of a term at a place, if it has one.
    fn argument(&self, term: u32, place: usize) -> Option<u32>
        requires { IsTermAt self.now term }
        ensures none { IsNone result → terms_from place (tuple_at self.now term) ≡ nil }
        ensures some { IfSome result (λ n. terms_from place (tuple_at self.now term) ≡ cons (term_at self.now n) (terms_from (place + 1) (tuple_at self.now term))) }
        ensures there { IfSome result (IsTermAt self.now) }
        ensures below { IfSome result (λ n. n < term) }
        ensures fits { IfSome result (λ _. place + 1 < 2 ^ 64) }
    {
        let arguments = self.node(term).arguments.as_slice();
        if place < arguments.len() {
            Some(arguments[place])
        } else {
            None
        }
    }

    // The arguments of the terms at a place, where each has one.
    fn column(&self, terms: &[u32], place: usize) -> Option<Numbers>
        requires few { length terms.now ≤ 3 }
        requires terms { All (IsTermAt self.now) terms.now }
        ensures values { listed_at self.now result ≡ column_of self.now place terms.now }
        ensures terms { AreListed self.now result }
        ensures few { IfSome result (λ v. length v.items ≤ 3) }
    {
        let mut numbers = ArrayVec::new();
        for term in terms {
            let argument = self.argument(*term, place)?;
            numbers.push(argument);
        }
        Some(numbers)
    }

    // Whether no term has an argument at the place.
    fn are_ended(&self, terms: &[u32], place: usize) -> bool
        requires { All (IsTermAt self.now) terms.now }
        ensures { result ≡ are_empty (lists_from self.now place terms.now) }
    {
        for term in terms {
            if let Some(_) = self.argument(*term, place) {
                return false;
            }
        }
        true
    }

    // Whether the same terms stand at both lists of numbers.
    #[tactic(auto, using(crate::proofs::NumberTests::lists_test))]
    fn are_same(&self, values: &[u32], others: &[u32]) -> bool
        requires values { All (IsTermAt self.now) values.now }
        requires others { All (IsTermAt self.now) others.now }
        ensures { result ≡ pointwise (eq_by_cmp term_cmp) (map (term_at self.now) values.now) (map (term_at self.now) others.now) }
    {
        self.known();
        values == others
    }

    // The values of two patterns together, unless both have values and these differ.
    fn common(&self, first: Option<Numbers>, second: Option<Numbers>) -> Option<Option<Numbers>>
        requires first { AreListed self.now first }
        requires second { AreListed self.now second }
        ensures values { option_map (listed_at self.now) result ≡ common_of (listed_at self.now first) (listed_at self.now second) }
        ensures terms { IfSome result (AreListed self.now) }
    {
        match (first, second) {
            (None, values) | (values, None) => Some(values),
            (Some(values), Some(others)) => {
                if self.are_same(values.as_slice(), others.as_slice()) {
                    Some(Some(values))
                } else {
                    None
                }
            }
        }
    }

    // The values of the pattern of a first term and others; none where they are equal.
    #[cycle(values)]
    fn values_of(&self, first: u32, others: &[u32]) -> Option<Numbers>
        requires few { length others.now ≤ 3 }
        requires first { IsTermAt self.now first }
        requires others { All (IsTermAt self.now) others.now }
        ensures values { listed_at self.now result ≡ (pattern_of_terms (term_at self.now first) (map (term_at self.now) others.now)).values }
        ensures terms { AreListed self.now result }
    {
        if self.are_equal(first, others) {
            return None;
        }
        if !self.have_head(first, others) {
            return Some(side_by_side(first, others));
        }
        match self.values_from(first, others, 0) {
            None => Some(side_by_side(first, others)),
            Some(values) => values,
        }
    }

    // The values of the pattern of the arguments of a first term and others from a place on, if they have one.
    #[cycle(values)]
    fn values_from(&self, first: u32, others: &[u32], place: usize) -> Option<Option<Numbers>>
        requires few { length others.now ≤ 3 }
        requires first { IsTermAt self.now first }
        requires others { All (IsTermAt self.now) others.now }
        ensures values { option_map (listed_at self.now) result ≡ tuple_values (terms_from place (tuple_at self.now first)) (lists_from self.now place others.now) }
        ensures terms { IfSome result (AreListed self.now) }
    {
        let Some(argument) = self.argument(first, place) else {
            return self.are_ended(others, place).then_some(None);
        };
        let column = self.column(others, place)?;
        let front = self.values_of(argument, column.as_slice());
        let back = self.values_from(first, others, place + 1)?;
        self.common(front, back)
    }

    // The numbers of the values of the row of a first tuple and others.
    fn values_beside(&self, first: u32, others: &[u32]) -> Option<NumberSet>
        requires few { length others.now ≤ 3 }
        requires first { IsTermAt self.now first }
        requires others { All (IsTermAt self.now) others.now }
        ensures values { option_map (set_at self.now) result ≡ option_map (λ r. r.values) (delta (tuples_at self.now (first ∷ others.now))) }
        ensures terms { IfSome result (IsTermSet self.now) }
    {
        let values = self.values_from(first, others, 0)?;
        let numbers = values?;
        Some(NumberSet::from_numbers(numbers.as_slice()))
    }

    /// The numbers of the values of the row of tuples, if they have one. It takes no memory.
    pub fn row_values(&self, tuples: &[u32]) -> Option<NumberSet>
        requires few { length tuples.now ≤ 4 }
        requires tuples { All (IsTermAt self.now) tuples.now }
        ensures values { option_map (set_at self.now) result ≡ option_map (λ r. r.values) (delta (tuples_at self.now tuples.now)) }
        ensures terms { IfSome result (IsTermSet self.now) }
    {
        let [first, others @ ..] = tuples else {
            return None;
        };
        self.values_beside(*first, others)
    }
}
