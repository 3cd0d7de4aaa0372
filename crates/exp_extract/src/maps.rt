//! The maps from eigenvariables to the variables of addresses, by number.
ghost use Rattle.std.specs.Prelude.{◌≡◌, ◌<◌, ◌∷◌, [], length, IfOk, IfSome, OnOk};
ghost use Rattle.std.specs.FinMap as fin;
ghost use Rattle.fol.specs.Formed.{IsFormedTerm};
ghost use Rattle.substitution.specs.Image.{IsFormedMap};
ghost use Rattle.exp_extract.specs.MapList.{map_in, KeepsMaps};

use fol::{Term, Var, mix};
use std::alloc::{AllocError, Global};
use std::collections::HashMap;
use std::marker::Model;
use substitution::{Subst, laws};

/// How a map is made: another one with one more variable.
pub(crate) struct Extension {
    pub parent: u32,
    pub eigenvariable: Var,
    pub variable: Term,
    pub number: u32,
}

impl Drop for Extension {
    fn drop(self) {
        let Extension {
            parent: _,
            eigenvariable,
            variable,
            number: _,
        } = self;
        drop(eigenvariable);
        drop(variable);
    }
}

/// Maps from eigenvariables to the variables of addresses. The first has no variable, and each other one is made of one before. One that is
/// made again keeps its number, unless it was forgotten.
#[derive(Drop)]
pub(crate) struct Maps {
    maps: Vec<Subst>,
    // How maps were made, by fingerprint: of two with one fingerprint the later is kept.
    made: HashMap<u64, Extension>,
}

impl Model for Maps {
    ghost use Rattle.std.specs.Prelude.{List};
    ghost use base.Stored.{coded_list};
    ghost use Rattle.substitution.specs.Maps.{Map, coded_map};

    ghost Value = { List Map };

    ghost coded = { coded_list coded_map };

    ghost use Rattle.exp_extract.specs.Maps.{maps_of, AreMaps};

    ghost view = { maps_of };

    ghost invariant = { AreMaps };
}

// A number in which unequal extensions mostly differ.
fn fingerprint(parent: u32, eigenvariable: &Var, variable: &Term) -> u64 {
    let start = mix(u64::from(parent), eigenvariable.fingerprint());
    mix(start, variable.fingerprint())
}

impl Maps {
    /// The map without variables alone.
    pub fn new(alloc: Global) -> Result<Maps, AllocError>
        ensures { IfOk result (λ maps. maps ≡ fin.empty ∷ []) }
    {
        laws::well_formed_maps();
        let mut maps = Vec::new(alloc);
        maps.push(Subst::new(alloc))?;
        Ok(Maps {
            maps,
            made: HashMap::new(alloc),
        })
    }

    /// The map of a number. Its terms are well formed.
    pub fn get(&self, number: u32) -> &Subst
        requires { number < length self.now }
        ensures value { result.now ≡ map_in self.now number }
        ensures formed { IsFormedMap (fin.get result.now) }
    {
        &self.maps[number as usize]
    }

    // The number of a map that was made in this way, where it is known.
    fn known(&self, parent: u32, eigenvariable: &Var, variable: &Term) -> Option<u32>
        ensures { IfSome result (λ n. (n < length self.now) × (map_in self.now n ≡ fin.insert (map_in self.now parent) eigenvariable.now variable.now)) }
    {
        match self.made.get(&fingerprint(parent, eigenvariable, variable)) {
            Some(made)
                if made.parent == parent
                    && made.eigenvariable == *eigenvariable
                    && made.variable == *variable => { Some(made.number) }
            _ => None,
        }
    }

    /// The number of the map with one more variable, or another term for one.
    pub fn extend(
        &mut self,
        alloc: Global,
        parent: u32,
        eigenvariable: &Var,
        variable: &Term,
    ) -> Result<u32, AllocError>
        requires number { parent < length self.old }
        requires formed { IsFormedTerm variable.now }
        ensures map { IfOk result (λ n. (n < length self.new) × (map_in self.new n ≡ fin.insert (map_in self.old parent) eigenvariable.now variable.now)) }
        ensures kept { OnOk result (KeepsMaps self.old self.new) }
    {
        laws::well_formed_maps();
        if let Some(known) = self.known(parent, eigenvariable, variable) {
            return Ok(known);
        }
        // There are fewer than 2^32 maps.
        let number = u32::try_from(self.maps.len()).map_err(|_| AllocError)?;
        let mut map = self.maps[parent as usize].copy(alloc)?;
        map.set(eigenvariable.copy()?, variable.copy()?)?;
        let made = Extension {
            parent,
            eigenvariable: eigenvariable.copy()?,
            variable: variable.copy()?,
            number,
        };
        self.maps.push(map)?;
        self.made
            .insert(fingerprint(parent, eigenvariable, variable), made)?;
        Ok(number)
    }
}
