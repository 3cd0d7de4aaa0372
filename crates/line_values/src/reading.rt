//! Reading a value from its text, in one pass over the tokens.
ghost use Rattle.std.specs.Prelude.{◌≡◌, ◌<◌, length, Some, None, Err, IfOk, OnOk, IsUtf8};
ghost use Rattle.json.specs.Json.{value as json_value, items as json_items, members as json_members};
ghost use Rattle.serde_json.specs.Data.{no_members};
ghost use Rattle.serde_json.specs.Read.{of_json, of_items, of_members, converted, read as read_text};
ghost use Rattle.line_values.specs.View.{view, items_view, members_view};
ghost use Rattle.line_values.specs.declared.reading.ValueError.TheVariants as errors;

use crate::numbers::Number;
use crate::values::Value;
use json::{Invalid, Reader, Scratch, Token};
use std::alloc::{AllocError, AllocFailed, Global};

/// How deep arrays and objects may nest.
const MAX_DEPTH: usize = 127;

/// Why no value is read.
#[derive(Clone, Copy, Drop, PartialEq, Eq)]
pub enum ValueError {
    Memory,
    /// The bytes aren't UTF-8 or aren't JSON, or a number is too large for a float.
    Invalid,
}

impl From<Invalid> for ValueError {
    ghost use Rattle.std.specs.Prelude.{◌≡◌};
    ghost use Rattle.line_values.specs.declared.reading.ValueError.TheVariants as errors;

    ghost from_gives = { λ _ error. error ≡ errors.Invalid };

    fn from(_invalid: Invalid) -> ValueError {
        ValueError::Invalid
    }
}

impl From<AllocError> for ValueError {
    ghost use Rattle.std.specs.Prelude.{◌≡◌};
    ghost use Rattle.line_values.specs.declared.reading.ValueError.TheVariants as errors;

    ghost from_gives = { λ _ error. error ≡ errors.Memory };

    fn from(_error: AllocError) -> ValueError {
        ValueError::Memory
    }
}

impl<T: Drop> From<AllocFailed<T>> for ValueError {
    ghost use Rattle.std.specs.Prelude.{◌≡◌};
    ghost use Rattle.line_values.specs.declared.reading.ValueError.TheVariants as errors;

    ghost from_gives = { λ _ error. error ≡ errors.Memory };

    fn from(_error: AllocFailed<T>) -> ValueError {
        ValueError::Memory
    }
}

/// The value that the bytes are. Texts with escapes are written out in the memory that is lent.
pub fn read_value<'a>(
    alloc: Global,
    bytes: &'a [u8],
    scratch: &'a mut Scratch,
) -> Result<Value<'a>, ValueError>
    ensures ok { IfOk result (λ v. IsUtf8 bytes.now × (read_text bytes.now ≡ Some (view v))) }
    ensures invalid { result ≡ Err errors.Invalid → IsUtf8 bytes.now → read_text bytes.now ≡ None }
{
    match simdutf8::compat::from_utf8(bytes) {
        Ok(text) => read_all(alloc, text, scratch),
        Err(_) => Err(ValueError::Invalid),
    }
}

fn read_all<'a>(
    alloc: Global,
    text: &'a str,
    scratch: &'a mut Scratch,
) -> Result<Value<'a>, ValueError>
    ensures ok { IfOk result (λ v. read_text text.now ≡ Some (view v)) }
    ensures invalid { result ≡ Err errors.Invalid → read_text text.now ≡ None }
{
    let mut reader = Reader::new(text, scratch)?;
    let value = read(alloc, &mut reader, MAX_DEPTH)?;
    if reader.next().is_some() {
        return Err(ValueError::Invalid);
    }
    Ok(value)
}

// The next value of the reader. Arrays and objects may nest `depth` deep.
#[cycle(read)]
#[inline(always)]
fn read<'a>(alloc: Global, reader: &mut Reader<'a>, depth: usize) -> Result<Value<'a>, ValueError>
    ensures ok { IfOk result (λ v. converted of_json (json_value depth reader.old) ≡ Some (view v, reader.new)) }
    ensures shorter { OnOk result (length reader.new < length reader.old) }
    ensures invalid { result ≡ Err errors.Invalid → converted of_json (json_value depth reader.old) ≡ None }
{
    let token = reader.next().ok_or(ValueError::Invalid)?;
    match token {
        Token::String(text) => Ok(Value::String(text)),
        Token::Number(text) => match Number::parse(text) {
            Some(number) => Ok(Value::Number(number)),
            None => Err(ValueError::Invalid),
        },
        Token::Bool(b) => Ok(Value::Bool(b)),
        Token::Null => Ok(Value::Null),
        Token::EndObject | Token::EndArray | Token::Key(_) | Token::Bad => Err(ValueError::Invalid),
        Token::BeginArray => {
            if depth == 0 {
                return Err(ValueError::Invalid);
            }
            Ok(Value::Array(read_items(alloc, reader, depth - 1)?))
        }
        Token::BeginObject => {
            if depth == 0 {
                return Err(ValueError::Invalid);
            }
            Ok(Value::Object(read_members(alloc, reader, depth - 1)?))
        }
    }
}

// The items of an array whose bracket was read.
#[cycle(read)]
#[inline(never)]
fn read_items<'a>(
    alloc: Global,
    reader: &mut Reader<'a>,
    depth: usize,
) -> Result<Vec<Value<'a>>, ValueError>
    ensures ok { IfOk result (λ v. converted of_items (json_items (json_value depth) (length reader.old) reader.old)
        ≡ Some (items_view v.items, reader.new)) }
    ensures shorter { OnOk result (length reader.new < length reader.old) }
    ensures invalid { result ≡ Err errors.Invalid
        → converted of_items (json_items (json_value depth) (length reader.old) reader.old) ≡ None }
{
    let mut found = Vec::new(alloc);
    'items: while !reader.take_end_array() {
        let item = read(alloc, reader, depth)?;
        found.push(item)?;
    }
    Ok(found)
}

// The members of an object whose brace was read.
#[cycle(read)]
#[inline(never)]
fn read_members<'a>(
    alloc: Global,
    reader: &mut Reader<'a>,
    depth: usize,
) -> Result<Vec<(&'a str, Value<'a>)>, ValueError>
    ensures ok { IfOk result (λ m. converted (λ ms. of_members ms no_members) (json_members (json_value depth) (length reader.old) reader.old)
        ≡ Some (members_view m.items, reader.new)) }
    ensures shorter { OnOk result (length reader.new < length reader.old) }
    ensures invalid { result ≡ Err errors.Invalid
        → converted (λ ms. of_members ms no_members) (json_members (json_value depth) (length reader.old) reader.old) ≡ None }
{
    let mut found = Vec::new(alloc);
    'members: while let Some(key) = reader.next_key()? {
        let member = read(alloc, reader, depth)?;
        found.push((key, member))?;
    }
    Ok(found)
}
