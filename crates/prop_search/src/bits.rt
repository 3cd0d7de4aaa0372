//! Sets of numbers in words: number n is in the set where bit n modulo 64 of word n / 64 is set.
ghost use Rattle.std.specs.Prelude.{◌≡◌, ◌*◌, ◌<◌, ◌≤◌, ◌^◌, ℕ, true, false, not, ◌&&◌, ◌||◌, ◌==◌, length, IfSome, IsNone};
ghost use Rattle.prop_search.specs.Bits.{has_number};

use fol::mix;

/// Whether the number is in the set.
pub(crate) fn has(words: &[u64], number: usize) -> bool
    requires { number < 64 * length words.now }
    ensures { result ≡ has_number words.now number }
{
    words[number / 64] & (1 << (number % 64)) != 0
}

/// Adds a number.
pub(crate) fn insert(words: &mut [u64], number: usize)
    requires { number < 64 * length words.old }
    ensures { (n : ℕ) → has_number words.new n ≡ (n == number || has_number words.old n) }
{
    words[number / 64] |= 1 << (number % 64);
}

/// Takes a number out.
pub(crate) fn remove(words: &mut [u64], number: usize)
    requires { number < 64 * length words.old }
    ensures { (n : ℕ) → has_number words.new n ≡ (not (n == number) && has_number words.old n) }
{
    words[number / 64] &= !(1 << (number % 64));
}

/// The least number of both sets.
pub(crate) fn first_common(a: &[u64], b: &[u64]) -> Option<u32>
    requires room { length a.now ≡ length b.now }
    requires few { length a.now ≤ 2 ^ 26 }
    ensures within { IfSome result (λ n. n < 64 * length a.now) }
    ensures found { IfSome result (λ n. (has_number a.now n && has_number b.now n) ≡ true) }
    ensures least { IfSome result (λ n. (k : ℕ) → k < n → (has_number a.now k && has_number b.now k) ≡ false) }
    ensures none { IsNone result → (k : ℕ) → (has_number a.now k && has_number b.now k) ≡ false }
{
    for (i, word) in a.iter().enumerate() {
        let both = *word & b[i];
        if both != 0 {
            return Some(64 * i as u32 + both.trailing_zeros());
        }
    }
    None
}

/// A number in which unequal sets mostly differ.
pub(crate) fn fingerprint(words: &[u64]) -> u64 {
    words
        .iter()
        .fold(0, |fingerprint, word| mix(fingerprint, *word))
}
