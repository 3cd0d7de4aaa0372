//! The names of entries.
ghost use Rattle.std.specs.Prelude.{◌≡◌, ◌≤◌, length, take, ℕ, IfOk, Ok, Err};
ghost use Rattle.std.specs.BTreeSet.{contains};
ghost use Rattle.fol.specs.Order.{text_cmp};
ghost use Rattle.tptp_tokens.specs.Lexer.{IsSized};
ghost use Rattle.tptp_problem.specs.Readers.{Gives, name_from, name_at, IsWith};
ghost use Rattle.tptp_problem.specs.Words.{digits as digits_of};

use crate::errors::{ProblemKind, ReadError};
use crate::tokens::{fault, next_token, unwanted};
use fol::Text;
use std::alloc::Global;
use std::collections::BTreeSet;
use tptp_tokens::{Pool, Scan, TextKind, Token};

// How many digits stand at the front.
fn digits(bytes: &[u8]) -> usize
    ensures value { result ≡ digits_of bytes.now }
    ensures bound { result ≤ length bytes.now }
{
    let mut count = 0;
    for byte in bytes {
        if !byte.is_ascii_digit() {
            return count;
        }
        count += 1;
    }
    count
}

// The name at the front and its length: what was found there, or digits.
fn name_found(alloc: Global, found: Scan, front: &[u8]) -> Result<(Text, usize), ReadError>
    requires { IsSized found (length front.now) }
    ensures value { Gives (λ x. (x.0, x.1)) result (name_from front.now found) }
    ensures bound { IfOk result (λ x. x.1 ≤ length front.now) }
{
    match found {
        Scan::Found(token, length) => match token {
            Token::Name(name) => Ok((name, length)),
            _ => Err(fault(front.len(), ProblemKind::Text(TextKind::Expected))),
        },
        Scan::Wrong(place, kind) => {
            let count = digits(front);
            if count == 0 {
                return Err(unwanted(&Scan::Wrong(place, kind), front.len()));
            }
            let name = Vec::from_slice(alloc, front.split_at(count).0)?;
            Ok((Text::from_vec(alloc, name)?, count))
        }
        found => Err(unwanted(&found, front.len())),
    }
}

/// The name of an entry, a name or digits, and the bytes behind it. No earlier entry may have it; it is one of the names from now on.
#[tactic(auto, unfolding(crate::specs::Readers::name_at))]
pub fn read_name<'a>(
    alloc: Global,
    pool: &mut Pool,
    names: &mut BTreeSet<Text>,
    bytes: &'a [u8],
) -> Result<(Text, &'a [u8]), ReadError>
    ensures value { Gives (λ x. (x.0, x.1.now)) result (name_at (contains text_cmp names.old) bytes.now) }
    ensures named { IfOk result (λ x. IsWith names.old names.new x.0) }
    ensures bound { IfOk result (λ x. length x.1.now ≤ length bytes.now) }
{
    let (found, front) = next_token(alloc, pool, bytes)?;
    let (name, length) = name_found(alloc, found, front)?;
    if !names.insert(name.copy()?)? {
        return Err(fault(front.len(), ProblemKind::NameTwice));
    }
    Ok((name, front.split_at(length).1))
}
