//! The law of the pairs of a table. The function does nothing: its contract is the law.
ghost use Rattle.std.specs.Prelude.{◌≡◌, List, []};
ghost use Rattle.memo_table.specs.Pairs.{IsLegal};
ghost use Rattle.memo_table.specs.Events.{AreAllowed, after_all};

use crate::law::Law;
use crate::rows::Pair;

/// Whoever notes pairs, and in whatever order: where each was allowed at its turn, all pairs are true and no two keys compare equal. And
/// each such list of pairs is one that came about like that.
pub fn histories<L: Law>()
    ensures legal { (home : L.Home) (events : List (Pair L.Key L.Val)) → AreAllowed (L.Truth home) L.Key.cmp [] events → IsLegal (L.Truth home) L.Key.cmp (after_all [] events) }
    ensures made { (home : L.Home) (pairs : List (Pair L.Key L.Val)) → IsLegal (L.Truth home) L.Key.cmp pairs → AreAllowed (L.Truth home) L.Key.cmp [] pairs × (after_all [] pairs ≡ pairs) }
{}
