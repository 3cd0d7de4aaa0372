//! Reply lines.
ghost use Rattle.std.specs.Prelude.{◌≡◌, ◌++◌, [], ◌∷◌, IfOk, option_copied, true, false, is_ok};
ghost use Rattle.serde_json.specs.Written.{compact_text};
ghost use Rattle.reply_lines.specs.Replies.{name_data, ok_data, error_data, answer_data, reply_data, line_of as line_of_reply};
ghost use Rattle.json_text.specs.Tokens.{data_tokens, Adds};
ghost use Rattle.reply_lines.specs.Tokens.{said};

use crate::answers::put_answer;
use crate::members::put_number;
use crate::replies::{Outcome, Reply};
use job_words::Name;
use json_text::JsonText;
use std::alloc::{AllocError, Global};
use text_tables::CanonicalTexts;

fn put_name(out: &mut JsonText, name: Option<&Name>)
    ensures { Adds out.old out.new (data_tokens (name_data (option_copied name.entry))) }
{
    match name {
        None => out.null(),
        Some(name) => out.string(name.as_str()),
    }
}

fn put_ok(
    out: &mut JsonText,
    alloc: Global,
    texts: &mut CanonicalTexts,
    outcome: &Outcome,
    name: Option<&Name>,
    n: u64,
)
    ensures { Adds out.old out.new (data_tokens (ok_data (said (answer_data outcome.now)) (name_data (option_copied name.entry)) n)) }
{
    out.begin_object();
    out.key("job");
    put_name(out, name);
    put_number(out, "n", n);
    out.key("ok");
    put_answer(out, alloc, texts, outcome);
    out.end_object();
}

fn put_error(
    out: &mut JsonText,
    alloc: Global,
    texts: &mut CanonicalTexts,
    outcome: &Outcome,
    name: Option<&Name>,
    n: u64,
)
    ensures { Adds out.old out.new (data_tokens (error_data (said (answer_data outcome.now)) (name_data (option_copied name.entry)) n)) }
{
    out.begin_object();
    out.key("error");
    put_answer(out, alloc, texts, outcome);
    out.key("job");
    put_name(out, name);
    put_number(out, "n", n);
    out.end_object();
}

fn put_reply(out: &mut JsonText, alloc: Global, texts: &mut CanonicalTexts, reply: &Reply)
    ensures { Adds out.old out.new (data_tokens (reply_data reply.now)) }
{
    let name = reply.name.as_ref();
    if reply.outcome.is_ok() {
        put_ok(out, alloc, texts, &reply.outcome, name, reply.n);
    } else {
        put_error(out, alloc, texts, &reply.outcome, name, reply.n);
    }
}

fn reply_text(
    alloc: Global,
    texts: &mut CanonicalTexts,
    reply: &Reply,
) -> Result<Vec<u8>, AllocError>
    ensures { IfOk result (λ v. v.items ≡ compact_text (reply_data reply.now)) }
{
    let mut out = JsonText::new(alloc)?;
    put_reply(&mut out, alloc, texts, reply);
    out.finish()
}

/// The line of a reply: compact JSON with its keys in the order of their bytes, and a newline. Texts of formulas that were printed before
/// are taken from the table.
#[tactic(auto, unfolding(crate::specs::Replies::line_of))]
pub fn reply_line(
    alloc: Global,
    texts: &mut CanonicalTexts,
    reply: &Reply,
) -> Result<Vec<u8>, AllocError>
    ensures { IfOk result (λ v. v.items ≡ line_of_reply reply.now) }
{
    let mut line = reply_text(alloc, texts, reply)?;
    line.push(b'\n')?;
    Ok(line)
}
