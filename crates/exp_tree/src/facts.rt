//! What a node of an expansion tree keeps of the tree below it.
ghost use Rattle.std.specs.Prelude.{◌≡◌, ◌+◌, ◌&&◌, true};
ghost use Rattle.exp_tree.specs.Sizes.{capped};

/// The number of nodes, cut off at 2^64 - 1, and whether the tree can stand on the left and on the right.
#[derive(Clone, Copy)]
pub(crate) struct Facts {
    pub nodes: u64,
    pub left: bool,
    pub right: bool,
}

impl Facts {
    /// No tree at all.
    pub(crate) fn nothing() -> Facts
        ensures nodes { result.nodes ≡ 0 }
        ensures left { result.left ≡ true }
        ensures right { result.right ≡ true }
    {
        Facts {
            nodes: 0,
            left: true,
            right: true,
        }
    }

    /// A tree of one node, which can stand on both sides.
    pub(crate) fn leaf() -> Facts
        ensures nodes { result.nodes ≡ 1 }
        ensures left { result.left ≡ true }
        ensures right { result.right ≡ true }
    {
        Facts {
            nodes: 1,
            left: true,
            right: true,
        }
    }

    /// The tree on the other side.
    pub(crate) fn turned(self) -> Facts
        ensures nodes { result.nodes ≡ self.nodes }
        ensures left { result.left ≡ self.right }
        ensures right { result.right ≡ self.left }
    {
        Facts {
            nodes: self.nodes,
            left: self.right,
            right: self.left,
        }
    }

    /// Two trees together.
    pub(crate) fn joined(self, other: Facts) -> Facts
        ensures nodes { result.nodes ≡ capped (self.nodes + other.nodes) }
        ensures left { result.left ≡ (self.left && other.left) }
        ensures right { result.right ≡ (self.right && other.right) }
    {
        Facts {
            nodes: self.nodes.saturating_add(other.nodes),
            left: self.left && other.left,
            right: self.right && other.right,
        }
    }

    /// A node on top, which can stand on the left and on the right as is said.
    pub(crate) fn on_top(self, left: bool, right: bool) -> Facts
        ensures nodes { result.nodes ≡ capped (self.nodes + 1) }
        ensures left { result.left ≡ (left && self.left) }
        ensures right { result.right ≡ (right && self.right) }
    {
        Facts {
            nodes: self.nodes.saturating_add(1),
            left: left && self.left,
            right: right && self.right,
        }
    }
}
