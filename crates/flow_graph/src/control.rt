//! Where control goes from one instruction.
ghost use Rattle.std.specs.Prelude.{◌≡◌, ◌↔◌, ◌^◌, ◌<◌, IsTrue};
ghost use Rattle.flow_graph.specs.Flows.{Leads, flow_of, target_of, target_place};

use insn_table::{Insn, Op, Operand};

/// Where control goes from an instruction, whatever the flags.
#[derive(Clone, Copy, Debug, PartialEq, Eq)]
pub enum Flow {
    /// To the next instruction.
    Next,
    /// To this place.
    Jump(u32),
    /// To this place, or to the next instruction.
    Branch(u32),
    /// Back to the caller.
    Return,
}

impl Flow {
    /// The place that it may jump to.
    pub fn target(self) -> Option<u32>
        ensures { result ≡ target_of self }
    {
        match self {
            Flow::Jump(place) | Flow::Branch(place) => Some(place),
            Flow::Next | Flow::Return => None,
        }
    }

    /// Whether it leads from one place to another.
    pub(crate) fn leads(self, from: u32, to: u32) -> bool
        ensures { IsTrue result ↔ Leads self from to }
    {
        match self {
            Flow::Next => from < to && to - from == 1,
            Flow::Jump(place) => to == place,
            Flow::Branch(place) => to == place || (from < to && to - from == 1),
            Flow::Return => false,
        }
    }
}

/// Where control goes from an instruction.
pub(crate) fn flow_of(insn: &Insn) -> Flow
    ensures { result ≡ flow_of insn.now }
{
    match insn.op {
        Op::Jump(_) => Flow::Branch(target_place(insn.args[0])),
        Op::Jmp => Flow::Jump(target_place(insn.args[0])),
        Op::Ret => Flow::Return,
        _ => Flow::Next,
    }
}

/// The place that an operand names, 0 where it names none.
fn target_place(operand: Operand) -> u32
    ensures { result ≡ target_place operand }
{
    match operand {
        Operand::Target(place) => place,
        _ => 0,
    }
}
