//! Names of jobs.
ghost use Rattle.std.specs.Prelude.{◌≡◌, true, string_bytes};
ghost use Rattle.std.specs.List.{list_all};
ghost use Rattle.job_words.specs.Names.{is_job_name, is_name_byte as is_in_name};

use std::marker::Model;

/// The name of a job: 1 to 64 bytes, each an ASCII letter, a digit, `_` or `-`.
#[derive(Drop)]
pub struct Name {
    text: String,
}

impl Model for Name {
    ghost use Rattle.std.specs.Prelude.{◌≡◌, ℕ, true, List, string_bytes};
    ghost use Rattle.job_words.specs.Names.{is_job_name};

    ghost Value = { List ℕ };

    ghost view = { λ n. string_bytes n.text };

    ghost invariant = { λ n. is_job_name (string_bytes n.text) ≡ true };
}

impl Name {
    /// The name with this text, which has to be one.
    pub fn from_string(text: String) -> Name
        requires { is_job_name (string_bytes text) ≡ true }
        ensures { result ≡ string_bytes text }
    {
        Name { text }
    }

    /// The name's text.
    pub fn as_str(&self) -> &str
        ensures text { result.now ≡ self.now }
        ensures is_name { is_job_name self.now ≡ true }
    {
        &self.text
    }
}

fn is_name_byte(byte: u8) -> bool
    ensures { result ≡ is_in_name byte }
{
    byte.is_ascii_alphanumeric() || byte == b'_' || byte == b'-'
}

fn are_name_bytes(text: &[u8]) -> bool
    ensures { result ≡ list_all is_in_name text.now }
{
    text.iter().all(|byte| is_name_byte(*byte))
}

/// Whether the text is a job's name.
pub fn is_name(text: &[u8]) -> bool
    ensures { result ≡ is_job_name text.now }
{
    !text.is_empty() && text.len() <= 64 && are_name_bytes(text)
}
