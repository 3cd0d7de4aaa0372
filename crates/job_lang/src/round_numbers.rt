//! Reading numbers of rounds.
ghost use Rattle.std.specs.Prelude.{◌≡◌, true};
ghost use Rattle.line_values.specs.View.{view};
ghost use Rattle.job_lang.specs.Fields.{Gives};
ghost use Rattle.job_lang.specs.RoundNumbers.{is_round_number, rounds_at as rounds_member};

use crate::numbers::limited_at;
use crate::reading::ReadError;
use line_values::Value;
use std::alloc::Global;
use std::marker::Model;

/// How many rounds of resolution are made at most: from 1 to 1,000.
#[derive(Drop)]
pub struct RoundNumber {
    rounds: u64,
}

impl Model for RoundNumber {
    ghost use Rattle.std.specs.Prelude.{◌≡◌, ℕ, true};
    ghost use Rattle.job_lang.specs.RoundNumbers.{is_round_number};

    ghost Value = { ℕ };

    ghost view = { λ r. r.rounds };

    ghost invariant = { λ r. is_round_number r.rounds ≡ true };
}

impl RoundNumber {
    /// The number itself.
    pub fn get(&self) -> u64
        ensures value { result ≡ self.now }
        ensures limits { is_round_number self.now ≡ true }
    {
        self.rounds
    }
}

/// The member `rounds`, a whole number from 1 to 1,000; 10 where the job has none.
pub fn rounds_at(alloc: Global, value: &Value<'_>) -> Result<RoundNumber, ReadError>
    ensures { Gives (λ r. r) result (rounds_member (view value.now)) }
{
    let rounds = limited_at(alloc, value, "rounds", 1, 1000, 10)?;
    Ok(RoundNumber { rounds })
}
