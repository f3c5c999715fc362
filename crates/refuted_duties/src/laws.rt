//! The law of refuted duties. The function does nothing; its contract is the law.
ghost use Rattle.std.specs.Prelude.{List};
ghost use Rattle.duty_claims.specs.Truth.{IsTrueDuty};
ghost use Rattle.duty_claims.specs.Whole.{IsWhole};
ghost use Rattle.refutations.specs.declared.step.Step.{Step};
ghost use Rattle.refuted_duties.specs.Refuted.{AreAcceptedFor};

use duty_claims::Duty;
use duty_readings::laws::broken_duties_have_assignments;

/// A whole duty for which steps are accepted is true.
pub fn refuted_duties_are_true(duty: &Duty)
    requires { IsWhole duty.now }
    ensures { (steps : List Step) → AreAcceptedFor duty.now steps → IsTrueDuty duty.now }
{
    duty.sheet.in_order();
    broken_duties_have_assignments(duty);
}
