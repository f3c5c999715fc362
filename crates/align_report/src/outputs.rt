//! The lines of the live outputs.
ghost use Rattle.std.specs.Prelude.{◌≡◌, ◌++◌, ◌%◌, ◌^◌, ◌<◌, OnOk, Some, slice_get, string_bytes};
ghost use Rattle.std.specs.List.{AllByRecursion};
ghost use Rattle.insn_ops.specs.Outputs.{IsOutput, IsWidth};
ghost use Rattle.machine.specs.Kept.{pure_of};
ghost use Rattle.align_report.specs.Outputs.{output_line, output_lines, output_name, output_value};

use insn_ops::Output;
use machine::State;
use register_names::name_of;
use std::alloc::AllocError;
use text_parts::{push_bytes, push_value};

// Appends an output as an admission names it.
fn push_name(out: &mut String, output: Output) -> Result<(), AllocError>
    requires { IsOutput output }
    ensures { OnOk result (string_bytes out.new ≡ string_bytes out.old ++ output_name output) }
{
    out.push_str("%")?;
    match output {
        Output::Reg { n, w } => out.push_str(name_of(w, n)),
        Output::Vec { n, w } => out.push_str(name_of(w, n)),
    }
}

// The low `w` bits of a word.
fn low_bits(w: u32, word: u64) -> u64
    requires { IsWidth w }
    ensures { result ≡ word % 2 ^ w }
{
    if w == 64 { word } else { word % (1u64 << w) }
}

// Appends what an output holds.
fn push_held(out: &mut String, state: &State, output: Output) -> Result<(), AllocError>
    requires { IsOutput output }
    ensures { OnOk result (string_bytes out.new ≡ string_bytes out.old ++ output_value (pure_of state.now) output) }
{
    match output {
        Output::Reg { n, w } => push_value(out, low_bits(w, state.reg(n))),
        Output::Vec { n, w } => {
            let len = (w / 8) as usize;
            push_bytes(out, &state.vec(n).bytes[..len])
        }
    }
}

// Appends the line of an output.
#[tactic(auto, unfolding(crate::specs::Outputs::output_line))]
fn push_output(out: &mut String, state: &State, output: Output) -> Result<(), AllocError>
    requires { IsOutput output }
    ensures { OnOk result (string_bytes out.new ≡ string_bytes out.old ++ output_line (pure_of state.now) output) }
{
    push_name(out, output)?;
    out.push_str(" ")?;
    push_held(out, state, output)?;
    out.push_str("\n")?;
    Ok(())
}

/// Appends the lines of live outputs, in their order.
pub fn push_outputs(out: &mut String, state: &State, live: &[Output]) -> Result<(), AllocError>
    requires { AllByRecursion IsOutput live.now }
    ensures { OnOk result (string_bytes out.new ≡ string_bytes out.old ++ output_lines (pure_of state.now) live.now) }
{
    for output in live {
        push_output(out, state, *output)?;
    }
    Ok(())
}
