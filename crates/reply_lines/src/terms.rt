//! Terms, variables and symbols in a reply.
ghost use Rattle.std.specs.Prelude.{◌≡◌, true, IfOk};
ghost use Rattle.std.specs.List.{list_all};
ghost use Rattle.fol.specs.Formed.{IsFormedTerm, IsFormedVar, is_printable};
ghost use Rattle.fol.specs.Syntax.{free, app, nil};
ghost use Rattle.tptp_print.specs.Canonical.{canonical_term};
ghost use Rattle.reply_lines.specs.Replies.{term_data, variable_data, symbol_data};
ghost use Rattle.json_text.specs.Tokens.{data_tokens, Adds};

use crate::members::printable;
use fol::{Sym, Term, Terms, Text, Var};
use job_words::SymbolName;
use json_text::JsonText;
use std::alloc::{AllocError, Global};
use tptp_print::print_term;

/// A term by its canonical text.
pub fn put_term(out: &mut JsonText, alloc: Global, term: &Term)
    requires { IsFormedTerm term.now }
    ensures { Adds out.old out.new (data_tokens (term_data term.now)) }
{
    match print_term(alloc, term) {
        Ok(text) => out.string(printable(text.as_bytes())),
        Err(_) => out.lack(),
    }
}

fn term_of(alloc: Global, var: &Var) -> Result<Term, AllocError>
    ensures { IfOk result (λ t. t ≡ free var.now) }
{
    Term::free(alloc, var.copy()?)
}

/// A variable by its canonical text, as a term.
pub fn put_variable(out: &mut JsonText, alloc: Global, var: &Var)
    requires { IsFormedVar var.now }
    ensures { Adds out.old out.new (data_tokens (variable_data var.now)) }
{
    match term_of(alloc, var) {
        Ok(term) => put_term(out, alloc, &term),
        Err(_) => out.lack(),
    }
}

/// The canonical text of a variable, as a term.
pub fn variable_text(alloc: Global, var: &Var) -> Result<Text, AllocError>
    requires { IsFormedVar var.now }
    ensures text { IfOk result (λ t. t ≡ canonical_term (free var.now)) }
    ensures printable { IfOk result (λ t. list_all is_printable t ≡ true) }
{
    let term = term_of(alloc, var)?;
    print_term(alloc, &term)
}

fn constant(alloc: Global, name: &Text) -> Result<Term, AllocError>
    ensures { IfOk result (λ t. t ≡ app (record { name = name.now; arity = 0 }) nil) }
{
    let symbol = Sym {
        name: name.copy()?,
        arity: 0,
    };
    Term::app(alloc, symbol, Terms::empty(alloc)?)
}

/// A symbol by its name, which is written as a constant of this name is.
pub fn put_symbol(out: &mut JsonText, alloc: Global, symbol: &SymbolName)
    ensures { Adds out.old out.new (data_tokens (symbol_data symbol.now)) }
{
    match constant(alloc, symbol.get()) {
        Ok(term) => put_term(out, alloc, &term),
        Err(_) => out.lack(),
    }
}
