//! What a node keeps of the tree below it, so that walks pass over parts in which they would find and change nothing.
ghost use Rattle.std.specs.Prelude.{◌≡◌, ◌+◌, ◌-◌, ◌≤◌, ◌^◌, true, false, ◌||◌, max};
ghost use Rattle.fol.specs.Mixing.{mixed, text_fingerprint};
ghost use Rattle.fol.specs.Facts.{AreFacts};

/// The largest number of nodes that a term, a list of terms or a formula has as a tree.
pub const MAX_SIZE: u32 = 0x400_0000;

/// The number of nodes, whether a variable is free, how many quantifiers around it the tree may need, whether a predicate symbol with a
/// body stands in it, and a fingerprint.
#[derive(Clone, Copy)]
pub struct Facts {
    pub size: u32,
    pub has_free: bool,
    pub dangling: u64,
    pub with_body: bool,
    pub fingerprint: u64,
}

impl Facts {
    /// A tree of one node, without a variable.
    pub fn leaf(fingerprint: u64) -> Facts
        ensures { AreFacts result 1 false 0 false fingerprint }
    {
        Facts {
            size: 1,
            has_free: false,
            dangling: 0,
            with_body: false,
            fingerprint,
        }
    }

    /// A node on top of one tree.
    pub fn on_top(self, fingerprint: u64) -> Facts
        requires { self.size ≤ 2 ^ 26 }
        ensures { AreFacts result (self.size + 1) self.has_free self.dangling self.with_body fingerprint }
    {
        Facts {
            size: self.size + 1,
            fingerprint,
            ..self
        }
    }

    /// A quantifier on top of its body.
    pub fn bound(self, fingerprint: u64) -> Facts
        requires { self.size ≤ 2 ^ 26 }
        ensures { AreFacts result (self.size + 1) self.has_free (self.dangling - 1) self.with_body fingerprint }
    {
        Facts {
            size: self.size + 1,
            dangling: self.dangling.saturating_sub(1),
            fingerprint,
            ..self
        }
    }

    /// A node on top of a tree, with a symbol whose body has this many nodes.
    pub fn with_body_of(self, nodes: u32, fingerprint: u64) -> Facts
        requires first { self.size ≤ 2 ^ 26 }
        requires second { nodes ≤ 2 ^ 26 }
        ensures { AreFacts result (self.size + nodes + 1) self.has_free self.dangling true fingerprint }
    {
        Facts {
            size: self.size + nodes + 1,
            with_body: true,
            fingerprint,
            ..self
        }
    }

    /// A node on top of two trees.
    pub fn joined(self, other: Facts, fingerprint: u64) -> Facts
        requires first { self.size ≤ 2 ^ 26 }
        requires second { other.size ≤ 2 ^ 26 }
        ensures { AreFacts result (self.size + other.size + 1) (self.has_free || other.has_free) (max self.dangling other.dangling) (self.with_body || other.with_body) fingerprint }
    {
        Facts {
            size: self.size + other.size + 1,
            has_free: self.has_free || other.has_free,
            dangling: self.dangling.max(other.dangling),
            with_body: self.with_body || other.with_body,
            fingerprint,
        }
    }
}

/// The fingerprint with one more number in it: a multiplication and a shift, which depend on the order of the numbers.
#[tactic(auto, unfolding(crate::specs::Mixing::mixed, crate::specs::Mixing::folded))]
pub fn mix(fingerprint: u64, number: u64) -> u64
    ensures { result ≡ mixed fingerprint number }
{
    let product = (fingerprint ^ number).wrapping_mul(0x9e37_79b9_7f4a_7c15);
    product ^ (product >> 32)
}

/// The fingerprint of a text.
#[tactic(auto, unfolding(crate::specs::Mixing::text_fingerprint))]
pub fn text_print(bytes: &[u8]) -> u64
    ensures { result ≡ text_fingerprint bytes.now }
{
    bytes
        .iter()
        .fold(15, |fingerprint, byte| mix(fingerprint, u64::from(*byte)))
}
