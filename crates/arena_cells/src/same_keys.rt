//! Keys of a table: keys are compared by their parts, and hashed by a few multiplications.
ghost use Rattle.std.specs.Prelude.{◌≡◌, ◌↔◌, IsTrue};
ghost use Rattle.std.specs.Hash as fed;
ghost use Rattle.std.specs.Cmp.{partial_equiv_from_equiv};
ghost use Rattle.number_hash.specs.Codes.{same_by_equiv, fingerprints_agree};
ghost use Rattle.arena_cells.specs.Keys.{coded_key, same_key, short_fingerprint, paired, mixed_pairs, rule_fingerprint, parts_fingerprint, key_fingerprint};

use crate::key::{Key, Parts, RuleKey};
use crate::numbers::Numbers;
use fol::mix;
use std::hash::{Hash, Hasher};

// Whether the rules name the same numbers.
fn is_same_rule(one: RuleKey, other: RuleKey) -> bool
    ensures { IsTrue result ↔ (one ≡ other) }
{
    match (one, other) {
        (RuleKey::Ax(a), RuleKey::Ax(b))
        | (RuleKey::NegL(a), RuleKey::NegL(b))
        | (RuleKey::NegR(a), RuleKey::NegR(b))
        | (RuleKey::AndL(a), RuleKey::AndL(b))
        | (RuleKey::AndR(a), RuleKey::AndR(b))
        | (RuleKey::OrL(a), RuleKey::OrL(b))
        | (RuleKey::OrR(a), RuleKey::OrR(b))
        | (RuleKey::ImpL(a), RuleKey::ImpL(b))
        | (RuleKey::ImpR(a), RuleKey::ImpR(b))
        | (RuleKey::DefL(a), RuleKey::DefL(b))
        | (RuleKey::DefR(a), RuleKey::DefR(b))
        | (RuleKey::Cut(a), RuleKey::Cut(b)) => a == b,
        (RuleKey::AllL(a, t), RuleKey::AllL(b, u))
        | (RuleKey::AllR(a, t), RuleKey::AllR(b, u))
        | (RuleKey::ExL(a, t), RuleKey::ExL(b, u))
        | (RuleKey::ExR(a, t), RuleKey::ExR(b, u)) => a == b && t == u,
        (RuleKey::TopR, RuleKey::TopR)
        | (RuleKey::BotL, RuleKey::BotL)
        | (RuleKey::Weak, RuleKey::Weak) => true,
        _ => false,
    }
}

fn are_same_parts(one: Parts, other: Parts) -> bool
    ensures { IsTrue result ↔ (one ≡ other) }
{
    match (one, other) {
        (Parts::Zero, Parts::Zero) => true,
        (Parts::One(p), Parts::One(q)) => p == q,
        (Parts::Two(p, q), Parts::Two(r, s)) => p == r && q == s,
        _ => false,
    }
}

fn are_same_numbers(one: &Numbers, other: &Numbers) -> bool
    ensures { IsTrue result ↔ (one.now ≡ other.now) }
{
    one.as_slice() == other.as_slice()
}

fn is_same(one: &Key, other: &Key) -> bool
    ensures { IsTrue result ↔ (one.now ≡ other.now) }
{
    match (one, other) {
        (Key::Symbol(s), Key::Symbol(t)) => *s == *t,
        (Key::Free(x), Key::Free(y)) => *x == *y,
        (Key::Nil, Key::Nil) | (Key::Top, Key::Top) | (Key::Bot, Key::Bot) => true,
        (&Key::Bound(a), &Key::Bound(b))
        | (&Key::Not(a), &Key::Not(b))
        | (&Key::All(a), &Key::All(b))
        | (&Key::Ex(a), &Key::Ex(b)) => a == b,
        (&Key::App(a, b), &Key::App(c, d))
        | (&Key::Cons(a, b), &Key::Cons(c, d))
        | (&Key::Atom(a, b), &Key::Atom(c, d))
        | (&Key::And(a, b), &Key::And(c, d))
        | (&Key::Or(a, b), &Key::Or(c, d))
        | (&Key::Imp(a, b), &Key::Imp(c, d))
        | (&Key::Sequent(a, b), &Key::Sequent(c, d)) => a == c && b == d,
        (&Key::Defined(a, b, c), &Key::Defined(d, e, f)) => a == d && b == e && c == f,
        (Key::Variables(a), Key::Variables(b)) | (Key::Side(a), Key::Side(b)) => {
            are_same_numbers(a, b)
        }
        (Key::Map(a, b), Key::Map(c, d)) => are_same_numbers(a, c) && are_same_numbers(b, d),
        (&Key::Tree(rule, end, parts), &Key::Tree(other, sequent, numbers)) => {
            end == sequent && are_same_parts(parts, numbers) && is_same_rule(rule, other)
        }
        _ => false,
    }
}

// A number of a kind and at most two numbers.
#[tactic(auto, unfolding(crate::specs::Keys::short_fingerprint))]
fn short(kind: u64, first: u32, second: u32) -> u64
    ensures { result ≡ short_fingerprint kind first second }
{
    mix(mix(mix(0, kind), u64::from(first)), u64::from(second))
}

// Two numbers as one.
#[tactic(auto, unfolding(crate::specs::Keys::paired))]
fn pair(high: u32, low: u32) -> u64
    ensures { result ≡ paired high low }
{
    u64::from(high) * 0x1_0000_0000 + u64::from(low)
}

// The fingerprint with the numbers of a list in it.
fn with_numbers(fingerprint: u64, numbers: &[u32]) -> u64
    ensures { result ≡ mixed_pairs fingerprint numbers.now }
{
    let mut mixed = fingerprint;
    let mut rest = numbers;
    while let [first, second, more @ ..] = rest {
        mixed = mix(mixed, pair(*first, *second));
        rest = more;
    }
    match rest {
        [last, ..] => mix(mixed, u64::from(*last)),
        [] => mixed,
    }
}

impl RuleKey {
    #[tactic(auto, unfolding(crate::specs::Keys::rule_fingerprint))]
    fn fingerprint(self) -> u64
        ensures { result ≡ rule_fingerprint self }
    {
        match self {
            RuleKey::Ax(main) => short(0, main, 0),
            RuleKey::TopR => short(1, 0, 0),
            RuleKey::BotL => short(2, 0, 0),
            RuleKey::NegL(main) => short(3, main, 0),
            RuleKey::NegR(main) => short(4, main, 0),
            RuleKey::AndL(main) => short(5, main, 0),
            RuleKey::AndR(main) => short(6, main, 0),
            RuleKey::OrL(main) => short(7, main, 0),
            RuleKey::OrR(main) => short(8, main, 0),
            RuleKey::ImpL(main) => short(9, main, 0),
            RuleKey::ImpR(main) => short(10, main, 0),
            RuleKey::AllL(main, name) => short(11, main, name),
            RuleKey::AllR(main, name) => short(12, main, name),
            RuleKey::ExL(main, name) => short(13, main, name),
            RuleKey::ExR(main, name) => short(14, main, name),
            RuleKey::DefL(main) => short(15, main, 0),
            RuleKey::DefR(main) => short(16, main, 0),
            RuleKey::Cut(main) => short(17, main, 0),
            RuleKey::Weak => short(18, 0, 0),
        }
    }
}

impl Parts {
    #[tactic(auto, unfolding(crate::specs::Keys::parts_fingerprint))]
    fn fingerprint(self) -> u64
        ensures { result ≡ parts_fingerprint self }
    {
        match self {
            Parts::Zero => 0,
            Parts::One(first) => short(1, first, 0),
            Parts::Two(first, second) => short(2, first, second),
        }
    }
}

impl Key {
    // A number in which unequal keys mostly differ.
    #[tactic(auto, unfolding(crate::specs::Keys::key_fingerprint))]
    fn fingerprint(&self) -> u64
        ensures { result ≡ key_fingerprint self.now }
    {
        match self {
            Key::Symbol(symbol) => symbol.fingerprint(),
            Key::Free(variable) => variable.fingerprint(),
            Key::Bound(index) => short(2, *index, 0),
            Key::App(symbol, terms) => short(3, *symbol, *terms),
            Key::Nil => short(4, 0, 0),
            Key::Cons(term, terms) => short(5, *term, *terms),
            Key::Atom(symbol, terms) => short(6, *symbol, *terms),
            Key::Defined(symbol, body, terms) => mix(short(19, *symbol, *body), u64::from(*terms)),
            Key::Top => short(7, 0, 0),
            Key::Bot => short(8, 0, 0),
            Key::Not(body) => short(9, *body, 0),
            Key::And(first, second) => short(10, *first, *second),
            Key::Or(first, second) => short(11, *first, *second),
            Key::Imp(first, second) => short(12, *first, *second),
            Key::All(body) => short(13, *body, 0),
            Key::Ex(body) => short(14, *body, 0),
            Key::Variables(numbers) => with_numbers(mix(0, 15), numbers.as_slice()),
            Key::Map(variables, terms) => {
                with_numbers(
                    with_numbers(mix(0, 16), variables.as_slice()),
                    terms.as_slice(),
                )
            }
            Key::Side(numbers) => with_numbers(mix(0, 17), numbers.as_slice()),
            Key::Sequent(left, right) => short(18, *left, *right),
            Key::Tree(rule, end, premises) => {
                mix(
                    mix(rule.fingerprint(), u64::from(*end)),
                    premises.fingerprint(),
                )
            }
        }
    }
}

impl PartialEq for Key {
    ghost eq = { same_key };

    ghost laws = { partial_equiv_from_equiv (same_by_equiv coded_key) };

    fn eq(&self, other: &Key) -> bool
        ensures value { result ≡ same_key self.now other.now }
        ensures same { IsTrue result ↔ (self.now ≡ other.now) }
    {
        is_same(self, other)
    }
}

impl Eq for Key {
    ghost laws = { same_by_equiv coded_key };
}

impl Hash for Key {
    ghost hash_input = { λ k. fed.u64 (key_fingerprint k) };

    ghost respects_eq = { fingerprints_agree coded_key key_fingerprint };

    fn hash<H: Hasher>(&self, state: &mut H) {
        state.write_u64(self.fingerprint());
    }
}
