//! The members of objects.
ghost use Rattle.std.specs.Prelude.{◌≡◌, IfOk, option_map};
ghost use Rattle.std.specs.Str.{bytes_eq};
ghost use Rattle.serde_json.specs.Find.{get_member};
ghost use Rattle.line_values.specs.View.{view, members_view, ordered_view};

use crate::values::Value;
use std::alloc::{AllocError, Global};
use std::collections::BTreeMap;

// Whether a text is a key. Most keys of an object differ in their lengths or in their first bytes.
#[inline(always)]
fn is_key(text: &str, key: &str) -> bool
    ensures { result ≡ bytes_eq text.now key.now }
{
    let (bytes, key_bytes) = (text.as_bytes(), key.as_bytes());
    if bytes.len() != key_bytes.len() {
        return false;
    }
    if !bytes.is_empty() && bytes[0] != key_bytes[0] {
        return false;
    }
    text == key
}

/// The last member under a key.
pub fn find<'v, 'a>(members: &'v Vec<(&'a str, Value<'a>)>, key: &str) -> Option<&'v Value<'a>>
    ensures { option_map (λ v. view v.now) result ≡ get_member key.now (members_view members.now.items) }
{
    let mut left = members.len();
    while left > 0 {
        left -= 1;
        let member = &members[left];
        if is_key(member.0, key) {
            return Some(&member.1);
        }
    }
    None
}

/// The members of an object, each key once with the last of its values, in rising order of the keys.
pub fn in_order<'v, 'a>(
    alloc: Global,
    members: &'v Vec<(&'a str, Value<'a>)>,
) -> Result<BTreeMap<&'a str, &'v Value<'a>>, AllocError>
    ensures { IfOk result (λ m. ordered_view m.entries ≡ members_view members.now.items) }
{
    let mut ordered = BTreeMap::new(alloc);
    for member in members.iter() {
        drop(ordered.insert(member.0, &member.1)?);
    }
    Ok(ordered)
}
