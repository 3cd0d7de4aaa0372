//! Symbols and free variables.
ghost use Rattle.std.specs.Prelude.{◌≡◌, IfOk};
ghost use Rattle.fol.specs.Facts.{sym_fingerprint, var_fingerprint};

use crate::facts::mix;
use crate::texts::Text;
use std::alloc::AllocError;

/// A function symbol, or a predicate symbol without its body: a name with a number of arguments. Two symbols of one name and different
/// numbers of arguments are different symbols.
#[derive(Drop)]
pub struct Sym {
    pub name: Text,
    pub arity: u32,
}

/// A free variable: one that is written as a word, or one of the numbered variables, which are written `V0`, `V1` and so on.
pub enum Var {
    Word(Text),
    Num(u64),
}

impl Drop for Var {
    fn drop(self) {
        match self {
            Var::Word(text) => drop(text),
            Var::Num(_) => {}
        }
    }
}

impl Sym {
    /// A number in which unequal symbols mostly differ, without a walk over the name.
    #[tactic(auto, unfolding(crate::specs::Facts::sym_fingerprint))]
    pub fn fingerprint(&self) -> u64
        ensures { result ≡ sym_fingerprint self.now }
    {
        mix(mix(16, self.name.fingerprint()), u64::from(self.arity))
    }

    /// The same symbol, whose name is shared.
    pub fn copy(&self) -> Result<Sym, AllocError>
        ensures { IfOk result (λ s. s ≡ self.now) }
    {
        let name = self.name.copy()?;
        Ok(Sym {
            name,
            arity: self.arity,
        })
    }
}

impl Var {
    /// A number in which unequal variables mostly differ, without a walk over the word.
    #[tactic(auto, unfolding(crate::specs::Facts::var_fingerprint))]
    pub fn fingerprint(&self) -> u64
        ensures { result ≡ var_fingerprint self.now }
    {
        match self {
            Var::Word(text) => mix(17, text.fingerprint()),
            Var::Num(number) => mix(18, *number),
        }
    }

    /// The same variable, whose word is shared.
    pub fn copy(&self) -> Result<Var, AllocError>
        ensures { IfOk result (λ v. v ≡ self.now) }
    {
        match self {
            Var::Word(text) => {
                let text = text.copy()?;
                Ok(Var::Word(text))
            }
            Var::Num(number) => Ok(Var::Num(*number)),
        }
    }
}
