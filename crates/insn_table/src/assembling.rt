//! Instructions from mnemonics and operands.
ghost use Rattle.std.specs.Prelude.{◌≡◌, ◌≤◌, List, IfOk, Some, length};
ghost use Rattle.std.specs.List.{list_all};
ghost use Rattle.insn_table.specs.Table.{IsTableInsn};
ghost use Rattle.insn_table.specs.Building.{four_of, is_known, is_scale, has_registers, assembled};

use crate::build_error::BuildError;
use crate::fitting::{Misfit, fits};
use crate::insn::{Insn, Operand};
use insn_spellings::look_up;

/// An instruction as it is written: its mnemonic, and its operands in the order of the text.
#[derive(Clone, Copy)]
pub struct Statement<'t> {
    pub mnemonic: &'t [u8],
    pub args: [Operand; 4],
}

impl<'t> Statement<'t> {
    /// With these operands, at most four.
    #[tactic(auto, using(crate::proofs::Built::four_operands))]
    pub fn new(mnemonic: &'t [u8], args: &[Operand]) -> Statement<'t>
        requires { length args.now ≤ 4 }
        ensures mnemonic { result.mnemonic.now ≡ mnemonic.now }
        ensures args { four_of args.now ≡ Some result.args }
    {
        Statement {
            mnemonic,
            args: four_of(args).unwrap(),
        }
    }
}

/// The instruction that a mnemonic and its operands make on this line: four operands at most, with
/// the target of a jump as the place of an instruction.
pub fn assemble(mnemonic: &[u8], args: &[Operand], line: u32) -> Result<Insn, BuildError>
    ensures is { result ≡ assembled mnemonic.now args.now line }
    ensures table { IfOk result IsTableInsn }
{
    let shape = look_up(mnemonic).ok_or(BuildError::UnknownMnemonic)?;
    let args = four_of(args).ok_or(BuildError::Unfit(Misfit::BadOperand))?;
    let insn = fits(shape, args, line)?;
    if have_registers(&insn.args) {
        Ok(insn)
    } else {
        Err(BuildError::BadRegister)
    }
}

/// The operands and nothing behind them, where there are at most four.
fn four_of(args: &[Operand]) -> Option<[Operand; 4]>
    ensures { result ≡ four_of args.now }
{
    const NONE: Operand = Operand::Nothing;
    match *args {
        [] => Some([NONE; 4]),
        [a] => Some([a, NONE, NONE, NONE]),
        [a, b] => Some([a, b, NONE, NONE]),
        [a, b, c] => Some([a, b, c, NONE]),
        [a, b, c, d] => Some([a, b, c, d]),
        _ => None,
    }
}

fn have_registers(args: &[Operand]) -> bool
    ensures { result ≡ list_all has_registers args.now }
{
    args.iter().all(|arg| has_registers(*arg))
}

/// Whether the registers and the scale of an operand are such that there are.
fn has_registers(operand: Operand) -> bool
    ensures { result ≡ has_registers operand }
{
    match operand {
        Operand::Reg { n, .. } | Operand::Vec { n, .. } => n < 16,
        Operand::Mem {
            base,
            index,
            scale,
            ..
        } => is_known(base) && is_known(index) && is_scale(scale),
        _ => true,
    }
}

fn is_known(register: Option<u8>) -> bool
    ensures { result ≡ is_known register }
{
    match register {
        None => true,
        Some(n) => n < 16,
    }
}

fn is_scale(scale: u8) -> bool
    ensures { result ≡ is_scale scale }
{
    scale == 1 || scale == 2 || scale == 4 || scale == 8
}
