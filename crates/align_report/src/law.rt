//! The law of reports.
ghost use Rattle.std.specs.Prelude.{◌≡◌, ℕ, List};
ghost use Rattle.insn_table.specs.declared.insn.Function.{Function};
ghost use Rattle.admission.specs.declared.admission.Admission.{Admission};
ghost use Rattle.tests_text.specs.declared.test.Tests.{Tests};
ghost use Rattle.align_report.specs.RunReport.{IsRunReport};

/// The law that there is at most one report of a run. It does nothing.
pub fn run_report_law()
    ensures { (f : Function) (a : Admission) (tests : Tests) (steps : ℕ) (x y : List ℕ)
        → IsRunReport f a tests steps x → IsRunReport f a tests steps y → x ≡ y }
{}
