//! Values with a list of entries.
ghost use Rattle.std.specs.Prelude.{◌≡◌, ◌^◌, ◌<◌, List, length};

/// A value that is changed in turns. A turn may add entries at the end of its list and leaves those that stand there, and it keeps the
/// value's home: what the entries are about, as the graph whose references they are. Only contracts speak of a home.
pub trait Grows: Drop {
    /// What the list has.
    type Entry;

    /// What a home is.
    ghost Home: { Type 0 };

    /// The entries of a value, the oldest first.
    ghost entries: { Self → List Self.Entry };

    /// The home of a value.
    ghost home: { Self → Home };

    /// How many entries the value has.
    fn count(&self) -> u64
        ensures length { result ≡ length (entries self.now) }
        ensures bound { result < 2 ^ 63 };
}
