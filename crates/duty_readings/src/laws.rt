//! The laws of a duty's clauses. The functions do nothing but look at the sheet's order; their contracts are the laws.
ghost use Rattle.std.specs.Prelude.{◌↔◌, ℕ, Bool};
ghost use Rattle.clause_rows.specs.DutyClauses.{duty_clauses};
ghost use Rattle.clause_rows.specs.Readings.{HasAssignments, HasEnvironments, IsEnvironmentOf};
ghost use Rattle.clauses.specs.Assignments.{MeetsAll};
ghost use Rattle.duty_claims.specs.Truth.{IsTrueDuty};
ghost use Rattle.duty_claims.specs.Whole.{IsWhole};
ghost use Rattle.duty_readings.specs.ReadEnvironment.{environment_read};

use duty_claims::Duty;

/// Each environment that breaks a whole duty is read by an assignment that meets its clauses.
pub fn broken_duties_have_assignments(duty: &Duty)
    requires { IsWhole duty.now }
    ensures { HasAssignments duty.now }
{
    duty.sheet.in_order();
}

/// Each assignment that meets the clauses of a whole duty reads an environment that breaks it.
pub fn assignments_have_environments(duty: &Duty)
    requires { IsWhole duty.now }
    ensures { HasEnvironments duty.now }
{
    duty.sheet.in_order();
}

/// That environment is the one whose registers and memories are read off the nodes of the reach.
pub fn environments_are_read_off(duty: &Duty)
    requires { IsWhole duty.now }
    ensures { (v : ℕ → Bool) → MeetsAll v (duty_clauses duty.now)
        → IsEnvironmentOf duty.now v (environment_read duty.now v) }
{
    duty.sheet.in_order();
}

/// A whole duty is true exactly where no assignment meets its clauses.
pub fn true_duties_have_no_assignments(duty: &Duty)
    requires { IsWhole duty.now }
    ensures { IsTrueDuty duty.now ↔ ((v : ℕ → Bool) → MeetsAll v (duty_clauses duty.now) → ⊥) }
{
    duty.sheet.in_order();
}
