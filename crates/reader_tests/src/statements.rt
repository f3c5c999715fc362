//! Statements of a function: ranges of numbers, forms of operands, and what they are read as.
use crate::reading::{first_other, first_other_count, refused_at};
use align_base::Word;
use att_reader::ReadKind::BadNumber;
use att_reader::read_function;
use insn_table::Operand;
use std::test::Fail;

#[test]
fn numbers_at_the_ends_of_their_ranges(rt: HostRuntime) {
    let cases = [
        (b"f:\n addb $-128,%al\n addb $255,%al\n ret".as_slice(), 3),
        (
            b"f:\n addw $-32768,%ax\n addw $65535,%ax\n ret".as_slice(),
            3,
        ),
        (
            b"f:\n addl $-2147483648,%eax\n addl $4294967295,%eax\n ret".as_slice(),
            3,
        ),
        (
            b"f:\n addq $-2147483648,%rax\n addq $2147483647,%rax\n ret".as_slice(),
            3,
        ),
        (
            b"f:\n movabsq $-9223372036854775808,%rax\n movabsq $18446744073709551615,%rax\n ret".as_slice(),
            3,
        ),
        (b"f:\n shlq $1,%rax\n shlq $63,%rax\n ret".as_slice(), 3),
        (
            b"f:\n addq $0x7fFFffff,%rax\n addq $-0x80000000,%rax\n addq $-0,%rax\n ret".as_slice(),
            4,
        ),
        (
            b"f:\n movq -2147483648(%rax),%rax\n movq 2147483647(%rax),%rax\n ret".as_slice(),
            3,
        ),
    ];
    assert_eq!(rt; first_other_count(rt.alloc(), &cases), cases.len());
}

#[test]
fn numbers_one_beyond_their_ranges(rt: HostRuntime) {
    let cases = [
        refused_at(b"f:\n addb $-129,%al\n ret", 2, BadNumber),
        refused_at(b"f:\n addb $256,%al\n ret", 2, BadNumber),
        refused_at(b"f:\n addw $-32769,%ax\n ret", 2, BadNumber),
        refused_at(b"f:\n addw $65536,%ax\n ret", 2, BadNumber),
        refused_at(b"f:\n addl $-2147483649,%eax\n ret", 2, BadNumber),
        refused_at(b"f:\n addl $4294967296,%eax\n ret", 2, BadNumber),
        refused_at(b"f:\n addq $-2147483649,%rax\n ret", 2, BadNumber),
        refused_at(
            b"f:\n movabsq $-9223372036854775809,%rax\n ret",
            2,
            BadNumber,
        ),
        refused_at(b"f:\n shlq $64,%rax\n ret", 2, BadNumber),
    ];
    assert_eq!(rt; first_other(rt.alloc(), &cases), cases.len());
}

#[test]
fn operands_are_written_in_each_way(rt: HostRuntime) {
    let cases = [
        (b"f:\n movl ( %rdi , %rcx , 4 ) , %eax\n ret".as_slice(), 2),
        (
            b"f:\n movl (,%rcx,8),%eax\n movl (,%rcx),%eax\n ret".as_slice(),
            3,
        ),
        (
            b"f:\n addq\t%rsi,\t%rax\n shlq %rax\n sall 4(%rdi)\n ret".as_slice(),
            4,
        ),
        (
            b"f:\n cmovne %rax,%rbx\n cmovnel %eax,%ebx\n sete %al\n retq".as_slice(),
            4,
        ),
        (
            b"f:\n imulq $3,%rax\n imulq $3,%rax,%rbx\n imulq %rax,%rbx\n ret".as_slice(),
            4,
        ),
        (
            b"f:\n endbr64\n pushq %rbx\n popq %rbx\n nop\n rep ret".as_slice(),
            5,
        ),
        (b"f:\n rep\t ret".as_slice(), 1),
    ];
    assert_eq!(rt; first_other_count(rt.alloc(), &cases), cases.len());
}

#[test]
fn operands_are_read_as_they_are_written(rt: HostRuntime) -> Result<(), Fail> {
    let alloc = rt.alloc();
    let name = Word::new(alloc, b"f")?;
    let text =
        b"f:\n nop\n movabsq $18446744073709551615,%rax\n addl $4294967295,%eax\n addl $-1,%eax\n\
          movq -8(%rdi,%rcx,4),%r15\n.L1: jmp f\n jmp .L1";
    let f = read_function(alloc, text.as_slice(), &name)?;
    let want = [
        Operand::Nothing,
        Operand::Imm(18446744073709551615),
        Operand::Imm(4294967295),
        Operand::Imm(18446744073709551615),
        Operand::Mem {
            base: Some(7),
            index: Some(1),
            scale: 4,
            disp: -8,
        },
        Operand::Target(0),
        Operand::Target(5),
    ];
    assert_eq!(rt; f.insns.len(), want.len());
    for (k, (insn, first)) in f.insns.as_slice().iter().zip(&want).enumerate() {
        assert_eq!(rt; insn.args[0], *first, "at {k}");
    }
    Ok(())
}

#[test]
fn loops_of_a_compiler_are_read(rt: HostRuntime) {
    let sum =
        b"\t.file \"sum.c\"\n\t.text\n\t.p2align 4\n\t.globl f\n\t.type f, @function\nf:\n.LFB0:\n\
          \t.cfi_startproc\n\tendbr64\n\txorl\t%eax, %eax\n\ttestq\t%rsi, %rsi\n\tje\t.L4\n\
          \txorl\t%ecx, %ecx\n\t.p2align 4,,10\n\t.p2align 3\n.L3:\n\taddl\t(%rdi,%rcx,4), %eax\n\
          \taddq\t$1, %rcx\n\tcmpq\t%rsi, %rcx\n\tjne\t.L3\n\tret\n\t.p2align 4,,10\n.L4:\n\tret\n\
          \t.cfi_endproc\n.LFE0:\n\t.size\tf, .-f\n";
    let cases = [(sum.as_slice(), 11)];
    assert_eq!(rt; first_other_count(rt.alloc(), &cases), cases.len());
}
