//! Single statements, read alone.
use att_statements::statement;
use insn_table::{Insn, Op, Operand};
use text_lines::Labels;

/// The label `.L2` leads to place 5, and there is no other.
struct OneLabel;

impl Labels for OneLabel {
    ghost use Rattle.std.specs.Prelude.{Some, None, codes, bytes_eq, if◌then◌else◌};

    ghost target = { λ _ name. if bytes_eq name (codes ".L2") then Some 5 else None };

    fn target(&self, name: &[u8]) -> Option<u32> {
        if name == b".L2".as_slice() {
            Some(5)
        } else {
            None
        }
    }
}

#[test]
fn a_move_from_memory_is_read(rt: HostRuntime) {
    let memory = Operand::Mem {
        base: Some(7),
        index: Some(1),
        scale: 4,
        disp: -8,
    };
    let eax = Operand::Reg { n: 0, w: 32 };
    let insn = Insn {
        op: Op::Mov,
        w: 32,
        vex: false,
        args: [memory, eax, Operand::Nothing, Operand::Nothing],
        line: 3,
    };
    assert_eq!(rt;
        statement(b"movl\t-0x8( %rdi,%rcx , 4 ), %eax", 3, &OneLabel),
        Ok(insn)
    );
}
