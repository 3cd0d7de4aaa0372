//! The variable of a cut.
ghost use Rattle.std.specs.Prelude.{◌≡◌, ◌++◌, IfOk};
ghost use Rattle.std.specs.List.{flat_map};
ghost use Rattle.fol.specs.Formed.{IsFormedVar};
ghost use Rattle.free_variables.specs.Occurrence.{var_list_terms};
ghost use Rattle.herbrand_laws.specs.Introduction.{tuple_variables, cut_variable as cut_variable_of};

use delta_table::{Instances, Item};
use fol::{Terms, TermsLink, Var};
use free_variables::{Vars, fresh, push_term_vars};
use lk_rules::Sequent;
use std::alloc::{AllocError, Global};

// Appends the variables of a tuple, one for each occurrence. After an error some of them may stand there.
fn push_tuple_vars(list: &mut Vec<Var>, tuple: &Terms) -> Result<(), AllocError>
    ensures { IfOk result (λ _. list.new.items ≡ list.old.items ++ var_list_terms tuple.now) }
{
    match tuple.link() {
        TermsLink::Nil => Ok(()),
        TermsLink::Cons(term, rest) => {
            push_term_vars(list, term)?;
            push_tuple_vars(list, rest)
        }
    }
}

// Appends the variables of tuples in the same way.
fn push_tuples_vars(list: &mut Vec<Var>, tuples: &[Terms]) -> Result<(), AllocError>
    ensures { IfOk result (λ _. list.new.items ≡ list.old.items ++ flat_map var_list_terms tuples.now) }
{
    for tuple in tuples {
        push_tuple_vars(list, tuple)?;
    }
    Ok(())
}

// Appends the variables of the items' tuples in the same way.
fn push_items_vars(list: &mut Vec<Var>, items: &[Item]) -> Result<(), AllocError>
    ensures { IfOk result (λ _. list.new.items ≡ list.old.items ++ tuple_variables items.now) }
{
    for item in items {
        push_tuples_vars(list, item.tuples().as_slice())?;
    }
    Ok(())
}

/// The numbered variable of least number that is in no tuple and not free in the sequent.
#[tactic(auto, using(crate::proofs::CutVariables::variable_of, crate::proofs::CutVariables::formed_of))]
pub(crate) fn cut_variable(
    alloc: Global,
    end: &Sequent,
    instances: &Instances,
) -> Result<Var, AllocError>
    ensures value { IfOk result (λ v. v ≡ cut_variable_of end.now instances.now) }
    ensures formed { IfOk result IsFormedVar }
{
    let mut list = Vec::new(alloc);
    end.left.push_free_vars(&mut list)?;
    end.right.push_free_vars(&mut list)?;
    push_items_vars(&mut list, instances.items())?;
    let used = Vars::from_vec(list);
    Ok(fresh(used.as_slice()))
}
