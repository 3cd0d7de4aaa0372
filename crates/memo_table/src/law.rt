//! Which pairs are true.
ghost use Rattle.std.specs.Prelude.{◌≡◌, IfOk};
ghost use Rattle.std.specs.declared.cmp.Ordering.TheVariants.{Equal};

use std::alloc::{AllocError, Global};

/// Says at a home which value is true of which key. A key may have several true values.
pub trait Law {
    /// What is looked up.
    type Key: Ord + Drop;

    /// What is found.
    type Val: Drop;

    /// What the pairs are about, as the graph whose references they hold.
    type Home;

    /// The value is true of the key at the home.
    ghost Truth: { Self.Home → Self.Key → Self.Val → Type 0 };

    /// A value that is true of the same keys.
    fn copy(alloc: Global, home: &Self::Home, val: &Self::Val) -> Result<Self::Val, AllocError>
        requires { (key : Self.Key) × Truth home.now key val.now }
        ensures { IfOk result (λ v. (key : Self.Key) → Truth home.now key val.now → Truth home.now key v) };

    /// What is true of a key is true of each that compares equal.
    ghost respects_cmp: { (home : Self.Home) (a b : Self.Key) (val : Self.Val) → Self.Key.cmp a b ≡ Equal → Truth home a val → Truth home b val };
}
