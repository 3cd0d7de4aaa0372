//! The rules by their names.
ghost use Rattle.std.specs.Prelude.{◌≡◌};
ghost use Rattle.job_words.specs.RuleKinds.{kind_name, kind_of as rule_kind, kind_named as named_kind, named_among as first_named};

use lk_rules::Rule;

/// The rules without what they name.
#[derive(Clone, Copy, PartialEq, Eq)]
pub enum RuleKind {
    Ax,
    TopR,
    BotL,
    NegL,
    NegR,
    AndL,
    AndR,
    OrL,
    OrR,
    ImpL,
    ImpR,
    AllL,
    AllR,
    ExL,
    ExR,
    DefL,
    DefR,
    Cut,
    Weak,
}

impl RuleKind {
    /// The kind of a rule.
    pub fn of(rule: &Rule) -> RuleKind
        ensures { result ≡ rule_kind rule.now }
    {
        match rule {
            Rule::Ax(_) => RuleKind::Ax,
            Rule::TopR => RuleKind::TopR,
            Rule::BotL => RuleKind::BotL,
            Rule::NegL(_) => RuleKind::NegL,
            Rule::NegR(_) => RuleKind::NegR,
            Rule::AndL(_) => RuleKind::AndL,
            Rule::AndR(_) => RuleKind::AndR,
            Rule::OrL(_) => RuleKind::OrL,
            Rule::OrR(_) => RuleKind::OrR,
            Rule::ImpL(_) => RuleKind::ImpL,
            Rule::ImpR(_) => RuleKind::ImpR,
            Rule::AllL(_, _) => RuleKind::AllL,
            Rule::AllR(_, _) => RuleKind::AllR,
            Rule::ExL(_, _) => RuleKind::ExL,
            Rule::ExR(_, _) => RuleKind::ExR,
            Rule::DefL(_) => RuleKind::DefL,
            Rule::DefR(_) => RuleKind::DefR,
            Rule::Cut(_) => RuleKind::Cut,
            Rule::Weak => RuleKind::Weak,
        }
    }

    /// The name in jobs and replies.
    pub fn name(self) -> &'static str
        ensures { result.now ≡ kind_name self }
    {
        match self {
            RuleKind::Ax => "ax",
            RuleKind::TopR => "topR",
            RuleKind::BotL => "botL",
            RuleKind::NegL => "negL",
            RuleKind::NegR => "negR",
            RuleKind::AndL => "andL",
            RuleKind::AndR => "andR",
            RuleKind::OrL => "orL",
            RuleKind::OrR => "orR",
            RuleKind::ImpL => "impL",
            RuleKind::ImpR => "impR",
            RuleKind::AllL => "allL",
            RuleKind::AllR => "allR",
            RuleKind::ExL => "exL",
            RuleKind::ExR => "exR",
            RuleKind::DefL => "defL",
            RuleKind::DefR => "defR",
            RuleKind::Cut => "cut",
            RuleKind::Weak => "weak",
        }
    }

    /// The kind with this name.
    pub fn named(name: &str) -> Option<RuleKind>
        ensures { result ≡ named_kind name.now }
    {
        named_among(
            name,
            &[
                RuleKind::Ax,
                RuleKind::TopR,
                RuleKind::BotL,
                RuleKind::NegL,
                RuleKind::NegR,
                RuleKind::AndL,
                RuleKind::AndR,
                RuleKind::OrL,
                RuleKind::OrR,
                RuleKind::ImpL,
                RuleKind::ImpR,
                RuleKind::AllL,
                RuleKind::AllR,
                RuleKind::ExL,
                RuleKind::ExR,
                RuleKind::DefL,
                RuleKind::DefR,
                RuleKind::Cut,
                RuleKind::Weak,
            ],
        )
    }
}

// The first of the kinds that has this name.
fn named_among(name: &str, kinds: &[RuleKind]) -> Option<RuleKind>
    ensures { result ≡ first_named name.now kinds.now }
{
    for kind in kinds {
        if name == kind.name() {
            return Some(*kind);
        }
    }
    None
}
