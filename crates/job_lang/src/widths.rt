//! Reading widths.
ghost use Rattle.std.specs.Prelude.{◌≡◌, true};
ghost use Rattle.line_values.specs.View.{view};
ghost use Rattle.job_lang.specs.Fields.{Gives};
ghost use Rattle.job_lang.specs.Widths.{is_width, width_at as width_member};

use crate::numbers::limited_at;
use crate::reading::ReadError;
use line_values::Value;
use std::alloc::Global;
use std::marker::Model;

/// How many tuples at most have a row of a delta table: from 2 to 4.
#[derive(Drop)]
pub struct Width {
    tuples: u64,
}

impl Model for Width {
    ghost use Rattle.std.specs.Prelude.{◌≡◌, ℕ, true};
    ghost use Rattle.job_lang.specs.Widths.{is_width};

    ghost Value = { ℕ };

    ghost view = { λ w. w.tuples };

    ghost invariant = { λ w. is_width w.tuples ≡ true };
}

impl Width {
    /// How many tuples it allows.
    pub fn get(&self) -> u64
        ensures value { result ≡ self.now }
        ensures limits { is_width self.now ≡ true }
    {
        self.tuples
    }
}

/// The member `width`, a whole number from 2 to 4; 4 where the job has none.
pub fn width_at(alloc: Global, value: &Value<'_>) -> Result<Width, ReadError>
    ensures { Gives (λ w. w) result (width_member (view value.now)) }
{
    let tuples = limited_at(alloc, value, "width", 2, 4, 4)?;
    Ok(Width { tuples })
}
