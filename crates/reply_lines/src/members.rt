//! Members of the objects of a reply.
ghost use Rattle.std.specs.Prelude.{◌≡◌, ◌∷◌, [], true, decimal};
ghost use Rattle.std.specs.List.{list_all, All};
ghost use Rattle.fol.specs.Formed.{IsFormed, is_printable};
ghost use Rattle.json.specs.Token.{key as key_token, string as string_token, number as number_token};
ghost use Rattle.serde_json.specs.Data.{string};
ghost use Rattle.tptp_print.specs.Canonical.{canonical};
ghost use Rattle.reply_lines.specs.Replies.{formulas_data, side_data, numbers_data};
ghost use Rattle.json_text.specs.Tokens.{data_tokens, Adds};

use fol::Formula;
use json_text::JsonText;
use lk_rules::Formulas;
use std::alloc::Global;
use text_tables::CanonicalTexts;

/// A printable ASCII text.
pub fn printable(text: &[u8]) -> &str
    requires { list_all is_printable text.now ≡ true }
    ensures { result.now ≡ text.now }
{
    match str::from_utf8(text) {
        Ok(text) => text,
        Err(_) => unreachable!(),
    }
}

/// A member that is a text.
pub fn put_text(out: &mut JsonText, name: &str, text: &str)
    ensures { Adds out.old out.new (key_token name.now ∷ string_token text.now ∷ []) }
{
    out.key(name);
    out.string(text);
}

/// A member that is a number.
pub fn put_number(out: &mut JsonText, name: &str, n: u64)
    ensures { Adds out.old out.new (key_token name.now ∷ number_token (decimal n) ∷ []) }
{
    out.key(name);
    out.number(n);
}

/// A formula by its canonical text.
pub fn put_formula(out: &mut JsonText, alloc: Global, texts: &mut CanonicalTexts, formula: &Formula)
    requires { IsFormed formula.now }
    ensures { Adds out.old out.new (data_tokens (string (canonical formula.now))) }
{
    match texts.print(alloc, formula) {
        Ok(text) => out.string(printable(text.as_bytes())),
        Err(_) => out.lack(),
    }
}

// Formulas by their canonical texts, in order.
fn put_formulas(out: &mut JsonText, alloc: Global, texts: &mut CanonicalTexts, formulas: &[Formula])
    requires { All IsFormed formulas.now }
    ensures { Adds out.old out.new (data_tokens (formulas_data formulas.now)) }
{
    out.begin_array();
    for formula in formulas {
        put_formula(out, alloc, texts, formula);
    }
    out.end_array();
}

/// A member that is a side of a sequent.
pub fn put_side(
    out: &mut JsonText,
    alloc: Global,
    texts: &mut CanonicalTexts,
    name: &str,
    side: &Formulas,
)
    ensures { Adds out.old out.new (key_token name.now ∷ data_tokens (side_data side.now)) }
{
    out.key(name);
    put_formulas(out, alloc, texts, side.as_slice());
}

fn put_list(out: &mut JsonText, numbers: &[u64])
    ensures { Adds out.old out.new (data_tokens (numbers_data numbers.now)) }
{
    out.begin_array();
    for n in numbers {
        out.number(*n);
    }
    out.end_array();
}

/// A member that is a list of numbers.
pub fn put_numbers(out: &mut JsonText, name: &str, numbers: &[u64])
    ensures { Adds out.old out.new (key_token name.now ∷ data_tokens (numbers_data numbers.now)) }
{
    out.key(name);
    put_list(out, numbers);
}
