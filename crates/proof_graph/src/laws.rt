//! The law of the history of a graph. The function does nothing: its contract is the law.
ghost use Rattle.std.specs.Prelude.{◌≡◌, List, []};
ghost use Rattle.proof_graph.specs.References.{Reference};
ghost use Rattle.proof_graph.specs.History.{IsLegal};
ghost use Rattle.proof_graph.specs.Events.{AreAllowed, after_all};

/// Whoever interns references, and in whatever order: where each was allowed at its turn, the history is legal. And each legal history
/// is one that came about like that.
pub fn histories()
    ensures legal { (events : List Reference) → AreAllowed [] events → IsLegal (after_all [] events) }
    ensures made { (history : List Reference) → IsLegal history → AreAllowed [] history × (after_all [] history ≡ history) }
{}
