//! The words of an entry: its language and its role.
ghost use Rattle.std.specs.Prelude.{◌≡◌, ◌<◌, ◌≤◌, length, IfOk};
ghost use Rattle.tptp_problem.specs.Readers.{Gives, word_at, within_conjectures, role_at};
ghost use Rattle.tptp_problem.specs.Words.{language_named, later_role as later_role_named, role_named as role_of_name, has_role as has_role_named};

use crate::errors::{ProblemKind, ReadError};
use crate::problems::{Language, Role};
use crate::tokens::{fault, next_token, unwanted};
use std::alloc::Global;
use tptp_tokens::{Pool, Scan, TextKind, Token};

/// How many conjectures a problem may have.
pub const MOST_CONJECTURES: usize = 1000;

fn language_of(name: &[u8]) -> Result<Language, ProblemKind>
    ensures { result ≡ language_named name.now }
{
    if name == b"fof".as_slice() {
        Ok(Language::Fof)
    } else if name == b"cnf".as_slice() {
        Ok(Language::Cnf)
    } else if name == b"include".as_slice() {
        Err(ProblemKind::Include)
    } else {
        Err(ProblemKind::Language)
    }
}

/// The word at the front of an entry: the language, how many bytes are left from the word on, and the bytes behind it.
#[tactic(auto, unfolding(crate::specs::Readers::word_at))]
pub fn read_word<'a>(
    alloc: Global,
    pool: &mut Pool,
    bytes: &'a [u8],
) -> Result<(Language, usize, &'a [u8]), ReadError>
    ensures value { Gives (λ x. (x.0, x.1, x.2.now)) result (word_at bytes.now) }
    ensures bound { IfOk result (λ x. length x.2.now < length bytes.now) }
{
    let (found, front) = next_token(alloc, pool, bytes)?;
    match found {
        Scan::Found(token, length) => match token {
            Token::Name(name) => match language_of(name.as_bytes()) {
                Ok(language) => Ok((language, front.len(), front.split_at(length).1)),
                Err(kind) => Err(fault(front.len(), kind)),
            },
            _ => Err(fault(front.len(), ProblemKind::Text(TextKind::Expected))),
        },
        found => Err(unwanted(&found, front.len())),
    }
}

fn later_role(name: &[u8]) -> Option<Role>
    ensures { result ≡ later_role_named name.now }
{
    if name == b"theorem".as_slice() {
        Some(Role::Theorem)
    } else if name == b"corollary".as_slice() {
        Some(Role::Corollary)
    } else if name == b"conjecture".as_slice() {
        Some(Role::Conjecture)
    } else if name == b"negated_conjecture".as_slice() {
        Some(Role::NegatedConjecture)
    } else if name == b"plain".as_slice() {
        Some(Role::Plain)
    } else {
        None
    }
}

fn role_named(name: &[u8]) -> Option<Role>
    ensures { result ≡ role_of_name name.now }
{
    if name == b"axiom".as_slice() {
        Some(Role::Axiom)
    } else if name == b"hypothesis".as_slice() {
        Some(Role::Hypothesis)
    } else if name == b"definition".as_slice() {
        Some(Role::Definition)
    } else if name == b"assumption".as_slice() {
        Some(Role::Assumption)
    } else if name == b"lemma".as_slice() {
        Some(Role::Lemma)
    } else {
        later_role(name)
    }
}

fn role_of(language: Language, name: &[u8]) -> Result<Role, ProblemKind>
    ensures { result ≡ has_role_named language (role_of_name name.now) }
{
    match (language, role_named(name)) {
        (_, None) | (Language::Cnf, Some(Role::Conjecture)) => Err(ProblemKind::Role),
        (_, Some(role)) => Ok(role),
    }
}

// One more conjecture than a problem may have is known by its role and is a fault at the entry's word.
fn limit_conjectures(role: Role, conjectures: usize, word: usize) -> Result<Role, ReadError>
    ensures { Gives (λ r. r) result (within_conjectures conjectures word role) }
{
    match role {
        Role::Conjecture if conjectures >= MOST_CONJECTURES => {
            Err(fault(word, ProblemKind::Text(TextKind::Deep)))
        }
        role => Ok(role),
    }
}

/// The role and the bytes behind it, where so many conjectures stand before this entry and `word` bytes were left from its word on.
#[tactic(auto, unfolding(crate::specs::Readers::role_at))]
pub fn read_role<'a>(
    alloc: Global,
    pool: &mut Pool,
    language: Language,
    conjectures: usize,
    word: usize,
    bytes: &'a [u8],
) -> Result<(Role, &'a [u8]), ReadError>
    ensures value { Gives (λ x. (x.0, x.1.now)) result (role_at language conjectures word bytes.now) }
    ensures bound { IfOk result (λ x. length x.1.now ≤ length bytes.now) }
{
    let (found, front) = next_token(alloc, pool, bytes)?;
    match found {
        Scan::Found(token, length) => match token {
            Token::Name(name) => match role_of(language, name.as_bytes()) {
                Ok(role) => {
                    let role = limit_conjectures(role, conjectures, word)?;
                    Ok((role, front.split_at(length).1))
                }
                Err(kind) => Err(fault(front.len(), kind)),
            },
            _ => Err(fault(front.len(), ProblemKind::Text(TextKind::Expected))),
        },
        found => Err(unwanted(&found, front.len())),
    }
}
