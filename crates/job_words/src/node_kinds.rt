//! The nodes of expansion trees by the names of their kinds.
ghost use Rattle.std.specs.Prelude.{◌≡◌};
ghost use Rattle.job_words.specs.NodeKinds.{node_name, node_named, node_named_among as first_named};

/// The nodes of expansion trees without what they name.
#[derive(Clone, Copy, PartialEq, Eq)]
pub enum NodeKind {
    Wk,
    Leaf,
    Not,
    And,
    Or,
    Imp,
    Weak,
    Strong,
}

impl NodeKind {
    /// The name in jobs and replies.
    pub fn name(self) -> &'static str
        ensures { result.now ≡ node_name self }
    {
        match self {
            NodeKind::Wk => "wk",
            NodeKind::Leaf => "leaf",
            NodeKind::Not => "not",
            NodeKind::And => "and",
            NodeKind::Or => "or",
            NodeKind::Imp => "imp",
            NodeKind::Weak => "weak",
            NodeKind::Strong => "strong",
        }
    }

    /// The kind with this name.
    pub fn named(name: &str) -> Option<NodeKind>
        ensures { result ≡ node_named name.now }
    {
        named_among(
            name,
            &[
                NodeKind::Wk,
                NodeKind::Leaf,
                NodeKind::Not,
                NodeKind::And,
                NodeKind::Or,
                NodeKind::Imp,
                NodeKind::Weak,
                NodeKind::Strong,
            ],
        )
    }
}

// The first of the kinds that has this name.
fn named_among(name: &str, kinds: &[NodeKind]) -> Option<NodeKind>
    ensures { result ≡ first_named name.now kinds.now }
{
    for kind in kinds {
        if name == kind.name() {
            return Some(*kind);
        }
    }
    None
}
