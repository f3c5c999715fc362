//! The reports of the short form of `decide`.
ghost use Rattle.std.specs.Prelude.{◌≡◌, ◌++◌, length, string_bytes, IfOk, OnOk};
ghost use Rattle.align_report.specs.PlainReport.{different_report, differs_line, equivalent_report, register_line, register_lines, returned_line, side_name};

use insn_ops::Side;
use plain_functions::Counterexample;
use register_names::name_of;
use std::alloc::{AllocError, Global};
use text_parts::push_value;

/// The report of two functions that are equivalent within a bound.
#[tactic(auto, unfolding(crate::specs::PlainReport::equivalent_report))]
pub fn equivalent_text(alloc: Global, bound: u64) -> Result<String, AllocError>
    ensures { IfOk result (λ text. string_bytes text ≡ equivalent_report bound) }
{
    format!(in alloc; "equivalent\nnodes 2\nedges 1\nbound {bound}\ntests none\n")
}

/// The line of a register, where it isn't 0.
#[tactic(auto, unfolding(crate::specs::PlainReport::register_line))]
fn push_register(out: &mut String, name: &str, value: u64) -> Result<(), AllocError>
    ensures { OnOk result (string_bytes out.new ≡ string_bytes out.old ++ register_line name.now value) }
{
    if value == 0 {
        return Ok(());
    }
    out.push_str("reg ")?;
    out.push_str(name)?;
    out.push_str(" ")?;
    push_value(out, value)?;
    out.push_str("\n")
}

/// The lines of the registers that aren't 0.
fn push_registers(out: &mut String, regs: &[u64]) -> Result<(), AllocError>
    requires { length regs.now ≡ 16 }
    ensures { OnOk result (string_bytes out.new ≡ string_bytes out.old ++ register_lines 0 regs.now) }
{
    for n in 0..16u8 {
        push_register(out, name_of(64, n), regs[n as usize])?;
    }
    Ok(())
}

/// What reports call a side.
pub fn side_name(side: Side) -> &'static str
    ensures { result.now ≡ side_name side }
{
    match side {
        Side::Left => "left",
        Side::Right => "right",
    }
}

/// The line of how many steps a side took.
#[tactic(auto, unfolding(crate::specs::PlainReport::returned_line))]
fn push_returned(out: &mut String, side: Side, steps: u64) -> Result<(), AllocError>
    ensures { OnOk result (string_bytes out.new ≡ string_bytes out.old ++ returned_line side steps) }
{
    let name = side_name(side);
    write!(out, "{name} returned {steps}\n")
}

/// The line of the values in which the ends differ.
#[tactic(auto, unfolding(crate::specs::PlainReport::differs_line))]
fn push_differs(out: &mut String, left: u64, right: u64) -> Result<(), AllocError>
    ensures { OnOk result (string_bytes out.new ≡ string_bytes out.old ++ differs_line left right) }
{
    out.push_str("differs %rax ")?;
    push_value(out, left)?;
    out.push_str(" ")?;
    push_value(out, right)?;
    out.push_str("\n")?;
    Ok(())
}

/// The report of two functions that end differently from a start state.
#[tactic(auto, unfolding(crate::specs::PlainReport::different_report))]
pub fn different_text(alloc: Global, found: &Counterexample) -> Result<String, AllocError>
    ensures { IfOk result (λ text. string_bytes text
        ≡ different_report found.now.left.steps found.now.right.steps found.now.left.value found.now.right.value found.now.regs) }
{
    let mut text = String::from_str(alloc, "different\nsource found\n")?;
    push_returned(&mut text, Side::Left, found.left.steps)?;
    push_returned(&mut text, Side::Right, found.right.steps)?;
    push_differs(&mut text, found.left.value, found.right.value)?;
    text.push_str("state\n")?;
    push_registers(&mut text, &found.regs)?;
    Ok(text)
}
