//! The variables of strong quantifiers.
ghost use Rattle.std.specs.Prelude.{◌≡◌, ℕ, ◌<◌, ◌∷◌, ◌++◌, [], true, false, if◌then◌else◌, nat_eq, IfOk, OnOk, OnErr};
ghost use Rattle.std.specs.List.{list_any, position_or_len};
ghost use Rattle.fol.specs.declared.symbols.Var.TheVariants.{Num};
ghost use Rattle.fol.specs.Syntax.{free};
ghost use Rattle.finite.specs.Finite as set;
ghost use Rattle.free_variables.specs.Fresh.{is_among};
ghost use Rattle.extraction_laws.specs.States.{nth_outside};

use fol::{Term, Var};
use free_variables::{Vars, fresh};
use std::alloc::{AllocError, Global};
use std::collections::HashMap;
use std::marker::Model;

/// The numbered variables outside a set that are given to places, by rising number, as terms.
pub(crate) struct Names {
    outside: Vars,
    // The places that have a variable, in the order in which they got them.
    named: Vec<u32>,
    variables: HashMap<u32, Term>,
    // The next variable, and its number.
    next: Term,
    number: u64,
}

impl Drop for Names {
    fn drop(self) {
        let Names {
            outside,
            named,
            variables,
            next,
            number: _,
        } = self;
        drop(outside);
        drop(named);
        drop(variables);
        drop(next);
    }
}

impl Model for Names {
    ghost use Rattle.exp_extract.specs.Named.{Named, coded_named};

    ghost Value = { Named };

    ghost coded = { coded_named };

    ghost use Rattle.exp_extract.specs.Names.{named_of, AreNames};

    ghost view = { named_of };

    ghost invariant = { AreNames };
}

// The least number above `number` whose variable isn't in the set. Where there is none below 2^64, it is want of memory.
fn next_number(outside: &Vars, number: u64) -> Result<u64, AllocError>
    ensures above { IfOk result (λ n. number < n) }
    ensures outside { IfOk result (λ n. is_among (Num n) (set.listing outside.now) ≡ false) }
    ensures between { IfOk result (λ n. (j : ℕ) → number < j → j < n → is_among (Num j) (set.listing outside.now) ≡ true) }
{
    for last in number..u64::MAX {
        if !outside.has(&Var::Num(last + 1)) {
            return Ok(last + 1);
        }
    }
    Err(AllocError)
}

// The least numbered variable outside the set, by its number.
fn first_number(outside: &Vars) -> u64
    ensures { Num result ≡ nth_outside (set.listing outside.now) 0 }
{
    match &fresh(outside.as_slice()) {
        Var::Num(number) => *number,
        Var::Word(_) => unreachable!(),
    }
}

impl Names {
    /// With no variable given.
    pub fn new(alloc: Global, outside: Vars) -> Result<Names, AllocError>
        ensures outside { IfOk result (λ names. names.outside ≡ set.listing outside) }
        ensures places { IfOk result (λ names. names.places ≡ []) }
    {
        let number = first_number(&outside);
        let next = Term::free(alloc, Var::Num(number))?;
        Ok(Names {
            outside,
            named: Vec::new(alloc),
            variables: HashMap::new(alloc),
            next,
            number,
        })
    }

    /// The variable of a place as a term, and for a place that has none the next one.
    pub fn variable(&self, place: u32) -> &Term
        ensures { result.now ≡ free (nth_outside self.now.outside (position_or_len (nat_eq place) self.now.places)) }
    {
        match self.variables.get(&place) {
            Some(term) => term,
            None => &self.next,
        }
    }

    /// Gives the next variable to a place, unless it has one.
    pub fn name(&mut self, alloc: Global, place: u32) -> Result<(), AllocError>
        ensures outside { self.new.outside ≡ self.old.outside }
        ensures ok { OnOk result (self.new.places ≡ (if list_any (nat_eq place) self.old.places then self.old.places else self.old.places ++ place ∷ [])) }
        ensures err { OnErr result (self.new ≡ self.old) }
    {
        if self.variables.contains_key(&place) {
            return Ok(());
        }
        let number = next_number(&self.outside, self.number)?;
        let next = Term::free(alloc, Var::Num(number))?;
        let term = self.next.copy()?;
        self.named.reserve(1)?;
        self.variables.insert(place, term)?;
        self.named.push_reserved(place);
        self.next = next;
        self.number = number;
        Ok(())
    }
}
