//! Laws of plain functions, as contracts of functions that do nothing.
ghost use Rattle.std.specs.Prelude.{◌≡◌, ℕ, ◌*◌, ◌<◌, ◌^◌, List, length, max};
ghost use Rattle.insn_table.specs.declared.insn.Insn.{Insn};
ghost use Rattle.insn_table.specs.Closed.{IsClosed};
ghost use Rattle.runs.specs.Equivalent.{AreEquivalent};
ghost use Rattle.machine.specs.Machine.{Machine};
ghost use Rattle.machine.specs.Step.{step_of};
ghost use Rattle.plain_functions.specs.Plain.{IsPlain};
ghost use Rattle.plain_functions.specs.ShortForm.{IsPlainStart, SamePlainEnd};
ghost use Rattle.plain_functions.specs.Straight.{LeaveTheSame, OnlyReturns};

use insn_table::Function;

/// A law: a plain function is closed.
#[tactic(auto, using(crate::proofs::Closing::closing))]
pub fn plain_functions_are_closed()
    ensures { (insns : List Insn) → IsPlain insns → length insns < 2 ^ 32 → IsClosed insns }
{}

/// The law that a plain function, with any pool of constants, returns at its last instruction from
/// each start state of the short form, and ends in no other way. It does nothing.
pub fn plain_functions_return(f: &Function)
    requires { IsPlain f.now.insns }
    ensures { (pool : List ℕ) (s : Machine) → IsPlainStart s → OnlyReturns f.now.insns pool s }
{}

/// The law that two plain functions, with any pools of constants, are equivalent where their moves
/// leave the same in %rax. It does nothing.
pub fn plain_functions_agree(f: &Function, g: &Function)
    requires { LeaveTheSame f.now.insns g.now.insns }
    ensures { (pool_f pool_g : List ℕ) → AreEquivalent IsPlainStart SamePlainEnd
        (2 * max (length f.now.insns) (length g.now.insns)) (step_of f.now.insns pool_f) (step_of g.now.insns pool_g) }
{}
