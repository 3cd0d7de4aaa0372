//! What a text has again and again, made once.
ghost use Rattle.std.specs.Prelude.{◌≡◌, ◌∷◌, IsTrue, IfOk};
ghost use Rattle.fol.specs.Syntax.{free, app, nil};

use fol::{Sym, Term, TermNode, Terms, TermsLink, Text, Var};
use std::alloc::{AllocError, Global};

/// The names, constants and variables that were made for a text. What stands in the text again shares what was made before. Each has one
/// place, by its bytes, and gives way to the next one of that place. A pool saves time and memory alone: what it gives is what would
/// be made without it.
#[derive(Drop)]
pub struct Pool {
    names: Vec<Option<Text>>,
    leaves: Vec<Option<Term>>,
    empty: Option<Terms>,
}

impl Pool {
    /// A pool for a text of this length. For a short one a few places do, or none.
    pub fn for_text(alloc: Global, length: usize) -> Result<Pool, AllocError> {
        let places = if length < 64 {
            0
        } else if length < 1024 {
            16
        } else {
            1024
        };
        let mut names = Vec::with_capacity(alloc, places)?;
        let mut leaves = Vec::with_capacity(alloc, places)?;
        for _place in 0..places {
            names.push(None)?;
            leaves.push(None)?;
        }
        Ok(Pool {
            names,
            leaves,
            empty: None,
        })
    }

    /// The text of these bytes, the first of which is given by itself.
    pub fn text(&mut self, alloc: Global, first: u8, more: &[u8]) -> Result<Text, AllocError>
        ensures { IfOk result (λ t. t ≡ first ∷ more.now) }
    {
        let place = place_of(first, more) & self.names.len().saturating_sub(1);
        if let Some(Some(text)) = self.names.get(place) {
            if is_text(text, first, more) {
                return text.copy();
            }
        }
        let text = new_text(alloc, first, more)?;
        if let Some(kept) = self.names.get_mut(place) {
            *kept = Some(text.copy()?);
        }
        Ok(text)
    }

    /// The name as a term, without arguments.
    pub fn constant(&mut self, alloc: Global, name: Text) -> Result<Term, AllocError>
        ensures { IfOk result (λ t. t ≡ app (record { name = name; arity = 0 }) nil) }
    {
        let place = name.fingerprint() as usize & self.leaves.len().saturating_sub(1);
        if let Some(Some(term)) = self.leaves.get(place) {
            if is_constant(term, &name) {
                return term.copy();
            }
        }
        let empty = self.no_terms(alloc)?;
        let term = Term::app(alloc, Sym { name, arity: 0 }, empty)?;
        self.keep(place, &term)?;
        Ok(term)
    }

    /// The free variable as a term.
    pub fn variable(&mut self, alloc: Global, var: Var) -> Result<Term, AllocError>
        ensures { IfOk result (λ t. t ≡ free var) }
    {
        let place = var.fingerprint() as usize & self.leaves.len().saturating_sub(1);
        if let Some(Some(term)) = self.leaves.get(place) {
            if is_variable(term, &var) {
                return term.copy();
            }
        }
        let term = Term::free(alloc, var)?;
        self.keep(place, &term)?;
        Ok(term)
    }

    /// The list of no term.
    pub fn no_terms(&mut self, alloc: Global) -> Result<Terms, AllocError>
        ensures { IfOk result (λ ts. ts ≡ nil) }
    {
        if let Some(terms) = &self.empty {
            if let TermsLink::Nil = terms.link() {
                return terms.copy();
            }
        }
        let terms = Terms::empty(alloc)?;
        self.empty = Some(terms.copy()?);
        Ok(terms)
    }

    fn keep(&mut self, place: usize, term: &Term) -> Result<(), AllocError> {
        if let Some(kept) = self.leaves.get_mut(place) {
            *kept = Some(term.copy()?);
        }
        Ok(())
    }
}

// A number in which different bytes mostly differ.
fn place_of(first: u8, more: &[u8]) -> usize {
    let mut place = usize::from(first);
    for byte in more {
        place = place.wrapping_mul(31).wrapping_add(usize::from(*byte));
    }
    place
}

fn new_text(alloc: Global, first: u8, more: &[u8]) -> Result<Text, AllocError>
    ensures { IfOk result (λ t. t ≡ first ∷ more.now) }
{
    let mut bytes = Vec::with_capacity(alloc, more.len().saturating_add(1))?;
    bytes.push(first)?;
    bytes.extend_from_slice(more)?;
    Text::from_vec(alloc, bytes)
}

fn is_text(text: &Text, first: u8, more: &[u8]) -> bool
    ensures { IsTrue result → text.now ≡ first ∷ more.now }
{
    match text.as_bytes() {
        [other, rest @ ..] => *other == first && rest == more,
        [] => false,
    }
}

fn is_constant(term: &Term, name: &Text) -> bool
    ensures { IsTrue result → term.now ≡ app (record { name = name.now; arity = 0 }) nil }
{
    match term.node() {
        TermNode::App(symbol, terms) => {
            symbol.arity == 0 && symbol.name == *name && is_empty(terms)
        }
        _ => false,
    }
}

fn is_empty(terms: &Terms) -> bool
    ensures { IsTrue result → terms.now ≡ nil }
{
    matches!(terms.link(), TermsLink::Nil)
}

fn is_variable(term: &Term, var: &Var) -> bool
    ensures { IsTrue result → term.now ≡ free var.now }
{
    match term.node() {
        TermNode::Free(other) => other == var,
        _ => false,
    }
}
