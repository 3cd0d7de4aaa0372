//! The cases of a contraction.

use lk_rules::Side;

/// How a cut is replaced: the first of these that fits. A case names a premise by the side on which it has the cut formula: the left premise
/// has it on the right, and the right one on the left. A rule introduces the cut formula where that is its main formula on this side. Where
/// both premises fit, it is the case of the left one.
#[derive(Clone, Copy, PartialEq, Eq)]
pub enum Case {
    /// The premise proves the conclusion already, but for a weakening.
    Weaken(Side),
    /// The premise is a leaf that doesn't introduce the cut formula, so it proves the conclusion too.
    Leaf(Side),
    /// The premise's last rule doesn't introduce the cut formula: the cut goes above that rule.
    Pass(Side),
    /// Both premises introduce it, and above this one it stands there once more: the upper one is cut first.
    Split(Side),
    /// Both introduce it, and nowhere above: cuts on its parts take the place of the cut.
    Reduce,
}
