//! What straight code leaves in a register: a sum of entry registers with coefficients, and a constant.
ghost use Rattle.std.specs.Prelude.{◌≡◌, ◌+◌, ◌-◌, ◌*◌, ◌^◌, ◌%◌, ◌<◌, ℕ, List, length, slice_index, take, IfSome, IfNone};
ghost use Rattle.plain_functions.specs.Plain.{IsPlain, IsPlainMove, IsSource};
ghost use Rattle.machine.specs.Machine.{AreRegs};
ghost use Rattle.plain_functions.specs.Straight.{plain_result, regs_after, value_at};
ghost use Rattle.plain_functions.specs.Sums.{LeavesInRax, sum_value, TellsApart, Tracks};

use insn_table::{Insn, Op, Operand};

/// A sum of the sixteen entry registers with coefficients, and a constant, modulo 2^64.
#[derive(Clone, Copy, Debug, PartialEq, Eq)]
pub struct Sum {
    coefs: [u64; 16],
    constant: u64,
}

impl Sum {
    /// A number.
    fn number(value: u64) -> Sum
        ensures { (regs : List ℕ) → sum_value result regs ≡ value }
    {
        Sum {
            coefs: [0; 16],
            constant: value,
        }
    }

    /// An entry register.
    fn register(n: u8) -> Sum
        requires { n < 16 }
        ensures { (regs : List ℕ) → length regs ≡ 16 → sum_value result regs ≡ slice_index regs n % 2 ^ 64 }
    {
        let mut coefs = [0; 16];
        coefs[n as usize] = 1;
        Sum { coefs, constant: 0 }
    }

    /// This sum and `weight` times the other.
    fn plus_times(&self, other: &Sum, weight: u64) -> Sum
        ensures { (regs : List ℕ) → sum_value result regs ≡ (sum_value self.now regs + weight * sum_value other.now regs) % 2 ^ 64 }
    {
        let mut coefs = [0; 16];
        for k in 0..16 {
            coefs[k] = self.coefs[k].wrapping_add(other.coefs[k].wrapping_mul(weight));
        }
        Sum {
            coefs,
            constant: self
                .constant
                .wrapping_add(other.constant.wrapping_mul(weight)),
        }
    }

    /// Its value where the entry registers are these.
    pub fn value(&self, regs: &[u64]) -> u64
        requires { length regs.now ≡ 16 }
        ensures { result ≡ sum_value self.now regs.now }
    {
        let mut total = self.constant;
        for k in 0..16 {
            total = total.wrapping_add(self.coefs[k].wrapping_mul(regs[k]));
        }
        total
    }
}

/// What each register holds at the entry.
fn entry_sums() -> [Sum; 16]
    ensures { (regs : List ℕ) → AreRegs regs → Tracks result regs regs }
{
    let mut sums = [Sum::number(0); 16];
    for n in 0..16u8 {
        sums[n as usize] = Sum::register(n);
    }
    sums
}

/// The sum that a source holds.
fn source_sum(sums: &[Sum], source: Operand) -> Sum
    requires sixteen { length sums.now ≡ 16 }
    requires source { IsSource source }
    ensures { (start regs : List ℕ) → Tracks sums.now start regs → sum_value result start ≡ value_at regs source }
{
    match source {
        Operand::Reg { n, .. } => sums[n as usize],
        Operand::Imm(value) => Sum::number(value),
        _ => Sum::number(0),
    }
}

/// The sum that the target holds after an operation.
fn plain_result(op: Op, old: &Sum, source: &Sum) -> Sum
    ensures { (regs : List ℕ) → sum_value result regs ≡ plain_result op (sum_value old.now regs) (sum_value source.now regs) }
{
    match op {
        Op::Mov => *source,
        Op::Add => old.plus_times(source, 1),
        Op::Sub => old.plus_times(source, u64::MAX),
        _ => *old,
    }
}

/// Goes over an instruction.
fn advance(sums: &mut [Sum], insn: &Insn)
    requires sixteen { length sums.old ≡ 16 }
    requires plain { IsPlainMove insn.now }
    ensures { (start regs : List ℕ) → Tracks sums.old start regs → Tracks sums.new start (regs_after insn.now regs) }
{
    if let Operand::Reg { n, .. } = insn.args[1] {
        let source = source_sum(sums, insn.args[0]);
        sums[n as usize] = plain_result(insn.op, &sums[n as usize], &source);
    }
}

/// The sum that a plain function leaves in `%rax`, register 0.
pub fn rax_sum(insns: &[Insn]) -> Sum
    requires { IsPlain insns.now }
    ensures { LeavesInRax insns.now result }
{
    let mut sums = entry_sums();
    for insn in &insns[..insns.len() - 1] {
        advance(&mut sums, insn);
    }
    sums[0]
}

/// Registers with which the sums have different values, where there are any: all 0 where the constants
/// differ, else 1 in the first register, by number, whose coefficients differ.
pub fn telling_registers(left: &Sum, right: &Sum) -> Option<[u64; 16]>
    ensures some { IfSome result (λ regs. TellsApart left.now right.now regs) }
    ensures none { IfNone result ((regs : List ℕ) → sum_value left.now regs ≡ sum_value right.now regs) }
{
    if left.constant != right.constant {
        return Some([0; 16]);
    }
    for n in 0..16 {
        if left.coefs[n] != right.coefs[n] {
            let mut regs = [0; 16];
            regs[n] = 1;
            return Some(regs);
        }
    }
    None
}
