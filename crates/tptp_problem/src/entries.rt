//! One entry of a problem.
ghost use Rattle.std.specs.Prelude.{◌≡◌, ◌<◌, ◌≤◌, length, IfOk};
ghost use Rattle.std.specs.BTreeSet.{contains};
ghost use Rattle.fol.specs.Order.{text_cmp};
ghost use Rattle.tptp_problem.specs.Readers.{Gives, IsWith};
ghost use Rattle.tptp_problem.specs.EntryReader.{entry_at, rest_at};

use crate::annotations::read_annotation;
use crate::bodies::read_body;
use crate::errors::ReadError;
use crate::names::read_name;
use crate::problems::Entry;
use crate::roles::{read_role, read_word};
use crate::tokens::{Mark, read_mark};
use fol::Text;
use std::alloc::Global;
use std::collections::BTreeSet;
use tptp_tokens::Pool;

/// The entry at the front, behind entries with these names and so many conjectures, and the bytes behind it. Its name is one of the names
/// from now on.
#[tactic(auto, unfolding(crate::specs::EntryReader::entry_at))]
pub fn read_entry<'a>(
    alloc: Global,
    pool: &mut Pool,
    names: &mut BTreeSet<Text>,
    conjectures: usize,
    bytes: &'a [u8],
) -> Result<(Entry, &'a [u8]), ReadError>
    ensures value { Gives (λ x. (x.0, x.1.now)) result (entry_at (contains text_cmp names.old) conjectures bytes.now) }
    ensures named { IfOk result (λ x. IsWith names.old names.new x.0.name) }
    ensures bound { IfOk result (λ x. length x.1.now < length bytes.now) }
{
    let (language, word, rest) = read_word(alloc, pool, bytes)?;
    let rest = read_mark(alloc, pool, Mark::Open, rest)?;
    let (name, rest) = read_name(alloc, pool, names, rest)?;
    let rest = read_mark(alloc, pool, Mark::Comma, rest)?;
    let (role, rest) = read_role(alloc, pool, language, conjectures, word, rest)?;
    let rest = read_mark(alloc, pool, Mark::Comma, rest)?;
    let (formula, annotated, rest) = read_body(alloc, pool, language, rest)?;
    let rest = read_rest(alloc, pool, annotated, rest)?;
    let rest = read_mark(alloc, pool, Mark::Dot, rest)?;
    let entry = Entry {
        name,
        language,
        role,
        formula,
    };
    Ok((entry, rest))
}

// The bytes behind the `)` that ends an entry, with its annotation passed over where there is one.
fn read_rest<'a>(
    alloc: Global,
    pool: &mut Pool,
    annotated: bool,
    bytes: &'a [u8],
) -> Result<&'a [u8], ReadError>
    ensures value { Gives (λ x. x.now) result (rest_at annotated bytes.now) }
    ensures bound { IfOk result (λ x. length x.now ≤ length bytes.now) }
{
    if annotated {
        read_annotation(alloc, pool, bytes)
    } else {
        Ok(bytes)
    }
}
