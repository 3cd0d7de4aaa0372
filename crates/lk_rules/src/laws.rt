//! The law of the table of rules. The function does nothing: its contract is the law.
ghost use Rattle.std.specs.Prelude.{◌≡◌, List, length, Some};
ghost use Rattle.lk_rules.specs.declared.rule.Rule.{Rule as Inference};
ghost use Rattle.lk_rules.specs.Rules.{Extra, premises, needs};

/// A rule that has a row has as many premises there as it needs.
#[tactic(auto, using(crate::proofs::Rows::row_length))]
pub fn rows()
    ensures { (r : Inference) (row : List Extra) → premises r ≡ Some row → length row ≡ needs r }
{}
