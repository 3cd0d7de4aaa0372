//! A turn: the value, out with a pass.
ghost use Rattle.std.specs.Prelude.{◌≡◌};
ghost use Rattle.turn_log.specs.Turns.{value_in};

/// The value of a log while a pass has its turn. It can't be dropped: it ends in `give`, so that the other threads get on.
pub struct Turn<T> {
    pub(crate) value: T,
}

impl<T> Turn<T> {
    /// The value.
    pub fn value(&self) -> &T
        ensures { result.now ≡ value_in self.now }
    {
        &self.value
    }
}
