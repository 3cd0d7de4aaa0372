//! Texts in UTF-8.
ghost use Rattle.std.specs.Prelude.{◌≡◌, string_bytes};

use std::marker::Model;

/// A text in UTF-8, which contracts see as its bytes: a text of a reply, as a field's path.
#[derive(Drop)]
pub struct Utf8Text {
    text: String,
}

impl Model for Utf8Text {
    ghost use Rattle.std.specs.Prelude.{ℕ, List, string_bytes};

    ghost Value = { List ℕ };

    ghost view = { λ t. string_bytes t.text };
}

impl Utf8Text {
    /// The text, which is moved and not copied.
    pub fn from_string(text: String) -> Utf8Text
        ensures { result ≡ string_bytes text }
    {
        Utf8Text { text }
    }

    /// The text.
    pub fn as_str(&self) -> &str
        ensures { result.now ≡ self.now }
    {
        &self.text
    }
}

/// A list of texts.
#[derive(Drop)]
pub struct Utf8Texts {
    items: Vec<Utf8Text>,
}

impl Model for Utf8Texts {
    ghost use Rattle.std.specs.Prelude.{ℕ, List};

    ghost Value = { List (List ℕ) };

    ghost view = { λ t. t.items.items };
}

impl Utf8Texts {
    /// The list of these texts.
    pub fn from_vec(items: Vec<Utf8Text>) -> Utf8Texts
        ensures { result ≡ items.items }
    {
        Utf8Texts { items }
    }

    /// The texts, in order.
    pub fn as_slice(&self) -> &[Utf8Text]
        ensures { result.now ≡ self.now }
    {
        self.items.as_slice()
    }
}
