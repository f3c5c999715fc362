//! Registers by name, as operands.
ghost use Rattle.std.specs.Prelude.{◌≡◌};
ghost use Rattle.att_statements.specs.Operands.{register_operand};
ghost use Rattle.att_statements.specs.ReadingOperands.{operand_named};

use insn_table::Operand;
use register_names::register_named;

/// Register `n` of `w` bits.
fn register_operand(w: u32, n: u8) -> Operand
    ensures { result ≡ register_operand w n }
{
    if w == 128 || w == 256 {
        Operand::Vec { n, w }
    } else {
        Operand::Reg { n, w }
    }
}

/// The register with this name, of any width.
#[tactic(auto, unfolding(crate::specs::ReadingOperands::operand_named))]
pub(crate) fn operand_named(name: &[u8]) -> Option<Operand>
    ensures { result ≡ operand_named name.now }
{
    let (w, n) = register_named(name)?;
    Some(register_operand(w, n))
}
