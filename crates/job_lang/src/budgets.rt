//! Reading budgets.
ghost use Rattle.std.specs.Prelude.{◌≡◌, true};
ghost use Rattle.line_values.specs.View.{view};
ghost use Rattle.job_lang.specs.Fields.{Gives};
ghost use Rattle.job_lang.specs.Budgets.{is_budget, budget_at as budget_member};

use crate::numbers::limited_at;
use crate::reading::ReadError;
use line_values::Value;
use std::alloc::Global;
use std::marker::Model;

/// How much an operation may do, as reductions of an elimination of cuts, sequents that a search visits, nodes of unfolded expansion
/// trees or inferences of a proof as a tree: from 1 to 1,000,000,000.
#[derive(Drop)]
pub struct Budget {
    amount: u64,
}

impl Model for Budget {
    ghost use Rattle.std.specs.Prelude.{◌≡◌, ℕ, true};
    ghost use Rattle.job_lang.specs.Budgets.{is_budget};

    ghost Value = { ℕ };

    ghost view = { λ b. b.amount };

    ghost invariant = { λ b. is_budget b.amount ≡ true };
}

impl Budget {
    /// How much it allows.
    pub fn get(&self) -> u64
        ensures value { result ≡ self.now }
        ensures limits { is_budget self.now ≡ true }
    {
        self.amount
    }
}

/// The member `budget`, a whole number from 1 to 1,000,000,000; 100,000 where the job has none.
pub fn budget_at(alloc: Global, value: &Value<'_>) -> Result<Budget, ReadError>
    ensures { Gives (λ b. b) result (budget_member (view value.now)) }
{
    let amount = limited_at(alloc, value, "budget", 1, 1_000_000_000, 100_000)?;
    Ok(Budget { amount })
}
