//! JSON values whose texts are borrowed.
ghost use Rattle.std.specs.Prelude.{◌≡◌, option_map, option_and_then};
ghost use Rattle.serde_json.specs.Find.{get as get_in, as_str as text_in, as_array as array_in, as_object as object_in, as_number as number_in, as_u64 as num_as_u64};
ghost use Rattle.line_values.specs.View.{view, items_view, members_view};

use crate::members::find;
use crate::numbers::Number;

/// Any JSON value. Its texts stand in the line, or where a text with escapes was written out.
#[derive(Drop)]
pub enum Value<'a> {
    Null,
    Bool(bool),
    Number(Number),
    String(&'a str),
    Array(Vec<Value<'a>>),
    /// The members in the order of the line. Of two with one key the later one counts.
    Object(Vec<(&'a str, Value<'a>)>),
}

impl<'a> Value<'a> {
    /// The member of an object under a key.
    pub fn get(&self, key: &str) -> Option<&Value<'a>>
        ensures { option_map (λ v. view v.now) result ≡ get_in key.now (view self.now) }
    {
        match self {
            Value::Object(members) => find(members, key),
            _ => None,
        }
    }

    /// The text, where this is one.
    pub fn as_str(&self) -> Option<&'a str>
        ensures { option_map (λ s. s.now) result ≡ text_in (view self.now) }
    {
        match self {
            Value::String(text) => Some(*text),
            _ => None,
        }
    }

    /// The items, where this is an array.
    pub fn as_array(&self) -> Option<&Vec<Value<'a>>>
        ensures { option_map (λ v. items_view v.now.items) result ≡ array_in (view self.now) }
    {
        match self {
            Value::Array(items) => Some(items),
            _ => None,
        }
    }

    /// The members in the order of the line, where this is an object.
    pub fn as_object(&self) -> Option<&Vec<(&'a str, Value<'a>)>>
        ensures { option_map (λ m. members_view m.now.items) result ≡ object_in (view self.now) }
    {
        match self {
            Value::Object(members) => Some(members),
            _ => None,
        }
    }

    /// The whole number, where this is one that fits a `u64`.
    pub fn as_u64(&self) -> Option<u64>
        ensures { result ≡ option_and_then num_as_u64 (number_in (view self.now)) }
    {
        match self {
            Value::Number(number) => number.as_u64(),
            _ => None,
        }
    }
}
