//! Fresh variables.
ghost use Rattle.std.specs.Prelude.{◌≡◌, ◌≤◌, false, length};
ghost use Rattle.fol.specs.declared.symbols.Var.TheVariants.{Num};
ghost use Rattle.std.specs.Ordering.{eq_by_cmp};
ghost use Rattle.fol.specs.Order.{var_cmp};
ghost use Rattle.free_variables.specs.Fresh.{least_outside, is_among, HasBelow, IsLeastOutside};

use fol::Var;

/// The numbered variable of least number outside the list. Each walk over the list passes all numbers that it meets in turn, and the
/// last passes none: two walks serve for a rising list, and as many as the list has numbered variables for any list.
#[tactic(auto, using(crate::proofs::FreshVariables::least_is, crate::proofs::FreshVariables::least_outside_is))]
pub fn fresh(vars: &[Var]) -> Var
    ensures value { result ≡ least_outside vars.now }
    ensures least { IsLeastOutside vars.now result }
{
    let mut number = 0;
    loop {
        let next = past_run(vars, number);
        if next == number {
            return Var::Num(number);
        }
        number = next;
    }
}

// A number up to which all are in the list, where all below `from` are: `from` itself only where it is not in the list.
fn past_run(vars: &[Var], from: u64) -> u64
    requires { HasBelow vars.now from }
    ensures below { HasBelow vars.now result }
    ensures from { from ≤ result }
    ensures outside { result ≡ from → is_among (Num from) vars.now ≡ false }
{
    let mut next = from;
    for var in vars {
        if is_number(var, next) {
            next += 1;
        }
    }
    next
}

fn is_number(var: &Var, number: u64) -> bool
    ensures { result ≡ eq_by_cmp var_cmp (Num number) var.now }
{
    match var {
        Var::Word(_) => false,
        Var::Num(other) => number == *other,
    }
}
