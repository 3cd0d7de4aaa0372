//! Symbols that stand for formulas.
ghost use Rattle.std.specs.Prelude.{◌≡◌, ℕ, ◌^◌, ◌<◌, true, nat_le, length, Ok, Err, IfOk};
ghost use Rattle.fol.specs.declared.symbols.Var.{Var as Variable};
ghost use Rattle.fol.specs.Formed.{is_name, IsFormed, IsFormedPred};
ghost use Rattle.def_laws.specs.declared.fault.DefFault.TheVariants.{Free, Large};
ghost use Rattle.def_laws.specs.Defining.{max_nodes, defining, least_free as least_free_of};
ghost use Rattle.def_laws.specs.Flat.{flat};
ghost use Rattle.def_laws.specs.Nodes.{nodes_of};
ghost use Rattle.finite.specs.Finite as set;
ghost use Rattle.free_variables.specs.Fresh.{is_among};

use crate::counting::{MAX_NODES, count};
use def_laws::DefFault;
use fol::{Formula, Predicate, Sym, Text, Var};
use free_variables::{Vars, free_vars};
use std::alloc::{AllocError, Global};
use substitution::close_all;

/// The symbol of this name with an argument for each variable that stands for the formula. The first reason against it is a variable that
/// is free in the formula and isn't one of the arguments, and then its size: the nodes with all defined symbols unfolded are counted, and
/// none of them is made. Of equal variables the last one is the argument.
pub fn define(
    alloc: Global,
    name: Text,
    vars: &[Var],
    body: &Formula,
) -> Result<Predicate, DefFault>
    requires name { is_name name ≡ true }
    requires body { IsFormed body.now }
    requires count { length vars.now < 2 ^ 32 }
    ensures ok { IfOk result (λ p. defining name vars.now body.now ≡ Ok p) }
    ensures free { (v : Variable) → result ≡ Err (Free v) → defining name vars.now body.now ≡ Err (Free v) }
    ensures large { result ≡ Err Large → defining name vars.now body.now ≡ Err Large }
    ensures formed { IfOk result IsFormedPred }
{
    if let Some(var) = least_free(alloc, vars, body)? {
        return Err(DefFault::Free(var));
    }
    if !is_small(alloc, body)? {
        return Err(DefFault::Large);
    }
    let body = close_all(alloc, vars, body)?;
    let symbol = Sym {
        name,
        arity: vars.len() as u32,
    };
    Ok(Predicate {
        symbol,
        body: Some(body),
    })
}

// The least variable that is free in the formula and isn't in the list.
fn least_free(alloc: Global, vars: &[Var], body: &Formula) -> Result<Option<Var>, AllocError>
    ensures { IfOk result (λ var. var ≡ least_free_of vars.now body.now) }
{
    let arguments = set_of(alloc, vars)?;
    let free = free_vars(alloc, body)?;
    for var in free.as_slice() {
        if !arguments.has(var) {
            return Ok(Some(var.copy()?));
        }
    }
    Ok(None)
}

// The set of the variables of a list.
fn set_of(alloc: Global, vars: &[Var]) -> Result<Vars, AllocError>
    ensures { IfOk result (λ members. (v : Variable) → set.has members v ≡ is_among v vars.now) }
{
    let mut list = Vec::with_capacity(alloc, vars.len())?;
    for var in vars {
        list.push(var.copy()?)?;
    }
    Ok(Vars::from_vec(list))
}

// Whether the formula with all unfolded has few enough nodes.
fn is_small(alloc: Global, body: &Formula) -> Result<bool, AllocError>
    requires { IsFormed body.now }
    ensures { IfOk result (λ small. small ≡ nat_le (nodes_of (flat body.now)) max_nodes) }
{
    let is_short = body.size() < 1 << 31;
    prove!(is_short);
    let left = count(alloc, body, &[], 0, MAX_NODES)?;
    Ok(left.is_some())
}
