//! The names of jobs in an operation.
ghost use Rattle.std.specs.Prelude.{◌≡◌, option_map, slice_get};
ghost use Rattle.operation_laws.specs.Given.{names_in, without as without_suffix, first_name as first_of, second_name as second_of, pair_name as pair_of, base_name as base_of};

use job_lang::Op;
use job_words::Utf8Text;

/// The name of a job that is written in an operation, by its place among them, in the order in which the fields are read.
pub fn name_at(op: &Op, place: usize) -> Option<&str>
    ensures { option_map (λ name. name.now) result ≡ slice_get (names_in op.now) place }
{
    match op {
        Op::Problem { .. } | Op::Tautology { .. } | Op::Expansion { .. } => None,
        Op::Lk { using, .. } | Op::Define { using, .. } => {
            using.as_slice().get(place).map(Utf8Text::as_str)
        }
        Op::Proves { proof, problem } => match place {
            0 => Some(proof.as_str()),
            1 => Some(problem.as_str()),
            _ => None,
        },
        Op::Show { of: text }
        | Op::Measure { proof: text }
        | Op::Subst { proof: text, .. }
        | Op::Cutelim { proof: text, .. }
        | Op::Eliminate { proof: text }
        | Op::Unfold { proof: text }
        | Op::Sat { problem: text }
        | Op::Prove { problem: text, .. }
        | Op::Expand { proof: text, .. }
        | Op::Fromexp {
            expansion: text,
            ..
        }
        | Op::Interpolate { proof: text, .. }
        | Op::Herbrand { proof: text, .. }
        | Op::Cutintro { proof: text, .. }
        | Op::Resolution { problem: text, .. } => match place {
            0 => Some(text.as_str()),
            _ => None,
        },
    }
}

// The text before a suffix that it has.
fn without<'t>(text: &'t str, suffix: &str) -> Option<&'t str>
    ensures { option_map (λ name. name.now) result ≡ without_suffix suffix.now text.now }
{
    text.strip_suffix(suffix)
}

/// The name of the pair whose first proof a name with the suffix `.first` stands for.
pub fn first_name(text: &str) -> Option<&str>
    ensures { option_map (λ name. name.now) result ≡ first_of text.now }
{
    without(text, ".first")
}

/// The name of the pair whose second proof a name with the suffix `.second` stands for.
pub fn second_name(text: &str) -> Option<&str>
    ensures { option_map (λ name. name.now) result ≡ second_of text.now }
{
    without(text, ".second")
}

/// The name of the pair that a name with the suffix `.first` or `.second` is about.
pub fn pair_name(text: &str) -> Option<&str>
    ensures { option_map (λ name. name.now) result ≡ pair_of text.now }
{
    match first_name(text) {
        Some(name) => Some(name),
        None => second_name(text),
    }
}

/// The name of the job that a field with this text is about: without the suffix `.first` or `.second`, where it has one.
pub fn base_name(text: &str) -> &str
    ensures { result.now ≡ base_of text.now }
{
    match pair_name(text) {
        Some(name) => name,
        None => text,
    }
}
