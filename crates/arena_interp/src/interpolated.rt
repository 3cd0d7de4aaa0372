//! Interpolations by their numbers.
ghost use Rattle.std.specs.Prelude.{◌≡◌};
ghost use Rattle.arena_interp.specs.Partitions.{number_of, other_number, with_number};

use lk_rules::Side;

/// The number of an interpolant, of the proof of the first part with it on the right, and of that of the second part with it on the left.
#[derive(Clone, Copy, Drop)]
pub struct Interpolated {
    pub formula: u32,
    pub first: u32,
    pub second: u32,
}

impl Interpolated {
    /// The number of the proof in which the interpolant stands on that side.
    pub(crate) fn proof(self, side: Side) -> u32
        ensures { result ≡ number_of self side }
    {
        match side {
            Side::Right => self.first,
            Side::Left => self.second,
        }
    }

    /// The number of the other proof.
    pub(crate) fn other_proof(self, side: Side) -> u32
        ensures { result ≡ other_number self side }
    {
        match side {
            Side::Right => self.second,
            Side::Left => self.first,
        }
    }

    /// The same with another proof in which the interpolant stands on that side.
    pub(crate) fn with_proof(self, side: Side, proof: u32) -> Interpolated
        ensures { result ≡ with_number self side proof }
    {
        match side {
            Side::Right => Interpolated {
                first: proof,
                ..self
            },
            Side::Left => Interpolated {
                second: proof,
                ..self
            },
        }
    }
}
