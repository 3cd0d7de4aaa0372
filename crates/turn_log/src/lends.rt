//! The value of a turn, lent for writing.
ghost use Rattle.std.specs.Prelude.{◌≡◌};
ghost use Rattle.std.specs.Borrow.{sem};
ghost use Rattle.turn_log.specs.Turns.{value_in};
ghost use Rattle.turn_log.specs.Lending.{LendsValue};

use crate::turn::Turn;

impl<T> Turn<T> {
    /// The value, for writing. What stands behind the reference at its end is the value of the turn.
    pub fn value_mut(&mut self) -> &mut T
        ensures* writes_back { sem 𝓛 (LendsValue T.row self.entry result) }
        ensures value { result.now ≡ value_in self.old }
    {
        &mut self.value
    }
}
