//! JSON that is written token by token.
ghost use Rattle.std.specs.Prelude.{◌≡◌, [], ◌∷◌, Some, None, IfOk, decimal};
ghost use Rattle.json.specs.Token.{begin_object as object_begins, end_object as object_ends, begin_array as array_begins, end_array as array_ends, key as key_token, string as string_token, number as number_token, boolean as boolean_token, null as null_token};
ghost use Rattle.json.specs.Print.{IsPrintable};
ghost use Rattle.json.specs.Reads.{token_of};
ghost use Rattle.json_text.specs.Tokens.{Adds, IsTextOf};

use json::{Token, Writer};
use std::alloc::{AllocError, Global};
use std::marker::Model;

/// How many bytes a text has room for at first. Most lines have fewer.
const CAPACITY: usize = 128;

/// JSON that is written token by token. Where memory runs out, what comes later isn't written, and `finish` tells it.
#[derive(Drop)]
pub struct JsonText {
    out: Writer,
    lacked: bool,
}

impl Model for JsonText {
    ghost use Rattle.std.specs.Prelude.{◌≡◌, List, [], Option, Some, None, cond};
    ghost use Rattle.std.specs.Coded.{coded_option};
    ghost use Rattle.json.specs.Token.{Token as SpecToken, tokens_code};

    ghost Value = { Option (List SpecToken) };

    ghost coded = { coded_option tokens_code };

    ghost view = { λ t. cond t.lacked None (Some t.out.tokens) };

    ghost invariant = { λ t. t.out.before ≡ [] };
}

impl JsonText {
    /// The text with no token.
    pub fn new(alloc: Global) -> Result<JsonText, AllocError>
        ensures { IfOk result (λ text. text ≡ Some []) }
    {
        let out = Writer::new(Vec::with_capacity(alloc, CAPACITY)?);
        Ok(JsonText { out, lacked: false })
    }

    /// The text's bytes, unless memory ran out.
    pub fn finish(self) -> Result<Vec<u8>, AllocError>
        ensures { IfOk result (λ v. IsTextOf self v.items) }
    {
        let JsonText { out, lacked } = self;
        if lacked {
            return Err(AllocError);
        }
        Ok(out.into_inner())
    }

    // One more token.
    fn put(&mut self, token: Token<'_>)
        requires { IsPrintable (token_of token) }
        ensures { Adds self.old self.new (token_of token.entry ∷ []) }
    {
        if !self.lacked {
            self.lacked = self.out.token(token).is_err();
        }
    }

    /// Memory ran out for what comes next.
    pub fn lack(&mut self)
        ensures { self.new ≡ None }
    {
        self.lacked = true;
    }

    /// An object begins.
    pub fn begin_object(&mut self)
        ensures { Adds self.old self.new (object_begins ∷ []) }
    {
        self.put(Token::BeginObject);
    }

    /// The object ends.
    pub fn end_object(&mut self)
        ensures { Adds self.old self.new (object_ends ∷ []) }
    {
        self.put(Token::EndObject);
    }

    /// An array begins.
    pub fn begin_array(&mut self)
        ensures { Adds self.old self.new (array_begins ∷ []) }
    {
        self.put(Token::BeginArray);
    }

    /// The array ends.
    pub fn end_array(&mut self)
        ensures { Adds self.old self.new (array_ends ∷ []) }
    {
        self.put(Token::EndArray);
    }

    /// The key of a member, whose value comes next.
    pub fn key(&mut self, name: &str)
        ensures { Adds self.old self.new (key_token name.now ∷ []) }
    {
        self.put(Token::Key(name));
    }

    /// A text.
    pub fn string(&mut self, text: &str)
        ensures { Adds self.old self.new (string_token text.now ∷ []) }
    {
        self.put(Token::String(text));
    }

    /// A number, in decimal digits.
    pub fn number(&mut self, n: u64)
        ensures { Adds self.old self.new (number_token (decimal n) ∷ []) }
    {
        if !self.lacked {
            self.lacked = self.out.u64(n).is_err();
        }
    }

    /// A truth value.
    pub fn boolean(&mut self, b: bool)
        ensures { Adds self.old self.new (boolean_token b ∷ []) }
    {
        self.put(Token::Bool(b));
    }

    /// The value `null`.
    pub fn null(&mut self)
        ensures { Adds self.old self.new (null_token ∷ []) }
    {
        self.put(Token::Null);
    }
}
