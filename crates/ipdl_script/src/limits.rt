//! Counts against limits.

ghost use Rattle.std.specs.Prelude.{◌≡◌, ◌≤◌, ◌<◌, ◌^◌, ◌-◌, ℕ, OnOk};
ghost use Rattle.ipdl_script.specs.Steps.{limit_test};
ghost use Rattle.ipdl_script.specs.TestGroups.{AnswersTest};
ghost use Rattle.ipdl_term.specs.Sizes.{saturated};

use crate::fault::StepFault;
use ipdl_base::Limit;

// Checks that a count is within a limit.
#[tactic(auto, using(crate::proofs::WholeTerms::limit_tests))]
pub(crate) fn check_limit(limit: Limit, most: u64, count: u64) -> Result<(), StepFault>
    requires { most < 2 ^ 64 - 1 }
    ensures test { (n : ℕ) → count ≡ saturated n → AnswersTest result (limit_test limit most n) }
    ensures kept { (n : ℕ) → count ≡ saturated n → OnOk result (n ≤ most) }
{
    if count > most {
        Err(StepFault::Over(limit))
    } else {
        Ok(())
    }
}
