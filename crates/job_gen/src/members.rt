//! Members of the objects of a job, and texts that are made for them.
ghost use Rattle.std.specs.Prelude.{◌≡◌, ◌∷◌, [], None, MatchResult, string_bytes, map};
ghost use Rattle.json.specs.Token.{key as key_token, string as string_token};
ghost use Rattle.serde_json.specs.Data.{string};
ghost use Rattle.job_gen.specs.Values.{numbers_data, texts_data, name_text, iterate_text, atom_text};
ghost use Rattle.json_text.specs.Tokens.{data_tokens, Adds};

use crate::texts::{atom, iterate, name};
use json_text::JsonText;
use std::alloc::{AllocError, Global};

// A text, unless there was no memory for it.
fn put_made(out: &mut JsonText, text: Result<String, AllocError>)
    ensures { MatchResult text
        (λ text. Adds out.old out.new (string_token (string_bytes text) ∷ []))
        (λ _. out.new ≡ None) }
{
    match text {
        Ok(text) => out.string(text.as_str()),
        Err(_) => out.lack(),
    }
}

/// The name of the job of line i.
pub fn put_name(out: &mut JsonText, alloc: Global, i: u64)
    ensures { Adds out.old out.new (data_tokens (string (name_text i))) }
{
    put_made(out, name(alloc, i));
}

/// The k-th f of a.
pub fn put_iterate(out: &mut JsonText, alloc: Global, k: u64)
    ensures { Adds out.old out.new (data_tokens (string (iterate_text k))) }
{
    put_made(out, iterate(alloc, k));
}

/// The atom p of the k-th f of a.
pub fn put_atom(out: &mut JsonText, alloc: Global, k: u64)
    ensures { Adds out.old out.new (data_tokens (string (atom_text k))) }
{
    put_made(out, atom(alloc, k));
}

/// A member that is a text.
pub fn put_text(out: &mut JsonText, key: &str, text: &str)
    ensures { Adds out.old out.new (key_token key.now ∷ string_token text.now ∷ []) }
{
    out.key(key);
    out.string(text);
}

/// A member that is a list of numbers.
pub fn put_numbers(out: &mut JsonText, key: &str, numbers: &[u64])
    ensures { Adds out.old out.new (key_token key.now ∷ data_tokens (numbers_data numbers.now)) }
{
    out.key(key);
    out.begin_array();
    for n in numbers {
        out.number(*n);
    }
    out.end_array();
}

/// A member that is a list of texts.
pub fn put_texts(out: &mut JsonText, key: &str, texts: &[&str])
    ensures { Adds out.old out.new
        (key_token key.now ∷ data_tokens (texts_data (map (λ text. text.now) texts.now))) }
{
    out.key(key);
    out.begin_array();
    for text in texts {
        out.string(text);
    }
    out.end_array();
}
