//! The text of operands.
ghost use Rattle.std.specs.Prelude.{◌≡◌, ◌++◌, OnOk, string_bytes};
ghost use Rattle.insn_text.specs.InsnText.{displacement_text, memory_text, number_text, numbers_of, operand_text, register_text, scaled_text};

use insn_table::Operand;
use register_names::register_name;
use std::alloc::AllocError;

/// Appends the text of an operand of an instruction of `w` bits.
#[tactic(auto, unfolding(crate::specs::InsnText::operand_text))]
pub(crate) fn push_operand(out: &mut String, w: u32, operand: Operand) -> Result<(), AllocError>
    ensures { OnOk result (string_bytes out.new ≡ string_bytes out.old ++ operand_text w operand) }
{
    match operand {
        Operand::Reg { n, w } | Operand::Vec { n, w } => push_register(out, w, n),
        Operand::Imm(v) => push_number(out, w, v),
        Operand::Mem {
            base,
            index,
            scale,
            disp,
        } => push_memory(out, base, index, scale, disp),
        Operand::Pool(at) => write!(out, "pool+{at}(%rip)"),
        Operand::Target(place) => write!(out, "@{place}"),
        Operand::Nothing => Ok(()),
    }
}

/// Appends the name of register `n` of `w` bits.
#[tactic(auto, unfolding(crate::specs::InsnText::register_text))]
fn push_register(out: &mut String, w: u32, n: u8) -> Result<(), AllocError>
    ensures { OnOk result (string_bytes out.new ≡ string_bytes out.old ++ register_text w n) }
{
    let name = register_name(w, n).unwrap_or("");
    write!(out, "%{name}")
}

/// Appends `$` and a number of `w` bits, as a signed one.
#[tactic(auto, unfolding(crate::specs::InsnText::number_text))]
fn push_number(out: &mut String, w: u32, v: u64) -> Result<(), AllocError>
    ensures { OnOk result (string_bytes out.new ≡ string_bytes out.old ++ number_text (numbers_of w) v) }
{
    let greatest = match w {
        8 => 0xff,
        16 => 0xffff,
        32 => 0xffff_ffff,
        _ => 0xffff_ffff_ffff_ffff,
    };
    let low = v & greatest;
    if low <= greatest / 2 {
        write!(out, "${low}")
    } else {
        let below = greatest - low + 1;
        write!(out, "$-{below}")
    }
}

/// Appends a displacement before parentheses.
fn push_displacement(out: &mut String, disp: i32) -> Result<(), AllocError>
    ensures { OnOk result (string_bytes out.new ≡ string_bytes out.old ++ displacement_text disp) }
{
    if disp == 0 {
        return Ok(());
    }
    write!(out, "{disp}")
}

/// Appends the text of a memory operand.
#[tactic(auto, unfolding(crate::specs::InsnText::memory_text))]
fn push_memory(
    out: &mut String,
    base: Option<u8>,
    index: Option<u8>,
    scale: u8,
    disp: i32,
) -> Result<(), AllocError>
    ensures { OnOk result (string_bytes out.new ≡ string_bytes out.old ++ memory_text base index scale disp) }
{
    match (base, index) {
        (None, None) => write!(out, "{disp}"),
        (Some(base), None) => {
            push_displacement(out, disp)?;
            out.push_str("(")?;
            push_register(out, 64, base)?;
            out.push_str(")")
        }
        (None, Some(index)) => {
            push_displacement(out, disp)?;
            out.push_str("(,")?;
            push_scaled(out, index, scale)
        }
        (Some(base), Some(index)) => {
            push_displacement(out, disp)?;
            out.push_str("(")?;
            push_register(out, 64, base)?;
            out.push_str(",")?;
            push_scaled(out, index, scale)
        }
    }
}

/// Appends an index, its scale and the closing parenthesis.
#[tactic(auto, unfolding(crate::specs::InsnText::scaled_text))]
fn push_scaled(out: &mut String, index: u8, scale: u8) -> Result<(), AllocError>
    ensures { OnOk result (string_bytes out.new ≡ string_bytes out.old ++ scaled_text index scale) }
{
    push_register(out, 64, index)?;
    write!(out, ",{scale})")
}
