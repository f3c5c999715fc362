//! Each kind of refusal, with other faults behind it on its line and on later lines.
use crate::reading::{first_other, refused_at};
use att_reader::ReadKind::{
    BadNumber, BadOperand, DataInBody, FallsOff, NoFunction, NotUtf8, PoolRefused, TwiceLabel,
    UnknownInstruction, UnknownLabel,
};

#[test]
fn texts_that_are_no_utf8(rt: HostRuntime) {
    let cases = [
        refused_at(b"\xff", 1, NotUtf8),
        refused_at(b"f:\n ret # \xff\n", 2, NotUtf8),
        refused_at(b"f:\n bogus \xff .byte 1\n .byte 1", 2, NotUtf8),
        refused_at(b"f:\n bogus\n ret # \xc3\n\n\xff", 3, NotUtf8),
        refused_at(b"\n\nf: ret\n# \xe2\x82", 4, NotUtf8),
    ];
    assert_eq!(rt; first_other(rt.alloc(), &cases), cases.len());
}

#[test]
fn names_without_label(rt: HostRuntime) {
    let cases = [
        refused_at(b"", 0, NoFunction),
        refused_at(b"g:\n bogus\n", 0, NoFunction),
        refused_at(b"f : ret", 0, NoFunction),
        refused_at(b"# f:\n.f: ret", 0, NoFunction),
        refused_at(b"ff:\n ret", 0, NoFunction),
    ];
    assert_eq!(rt; first_other(rt.alloc(), &cases), cases.len());
}

#[test]
fn labels_that_stand_twice(rt: HostRuntime) {
    let cases = [
        refused_at(b"f:\n.L1: ret\n.L1: bogus\n .byte 1", 3, TwiceLabel),
        refused_at(b"f:\n.L1:\n.L1: .quad 1\n bogus", 3, TwiceLabel),
        refused_at(
            b".L1:\nf:\n.L1:\n ret\n.L2: .L1: addq $1,%ah",
            5,
            TwiceLabel,
        ),
        refused_at(b"f: .L1: .L1: ret", 1, TwiceLabel),
    ];
    assert_eq!(rt; first_other(rt.alloc(), &cases), cases.len());
}

#[test]
fn data_in_the_body(rt: HostRuntime) {
    let cases = [
        refused_at(b"f:\n .byte 1\n bogus\n ret", 2, DataInBody),
        refused_at(b"f:\n ret\n .quad .L4\n.L1:\n.L1:", 3, DataInBody),
        refused_at(b"f:\n.L1: .double 1.5 # x\n.L1: ret", 2, DataInBody),
        refused_at(b"f:\n .zero\n jmp .L9", 2, DataInBody),
        refused_at(b"f:\n .asciz \"ret\"\n", 2, DataInBody),
    ];
    assert_eq!(rt; first_other(rt.alloc(), &cases), cases.len());
}

#[test]
fn unknown_instructions(rt: HostRuntime) {
    let cases = [
        refused_at(b"f:\n bogus x(%rip)\n .byte 1", 2, UnknownInstruction),
        refused_at(
            b"f:\n ret\n addps %xmm0,%xmm1\n jmp x(%rip)",
            3,
            UnknownInstruction,
        ),
        refused_at(
            b"f:\n MOVQ %rax,%rbx\n addq $08,%rax",
            2,
            UnknownInstruction,
        ),
        refused_at(b"f:\n mov %rax,%rbx\n ret", 2, UnknownInstruction),
        refused_at(b"f:\n rep retq\n ret", 2, UnknownInstruction),
        refused_at(b"f:\n rep ret %rax\n ret", 2, UnknownInstruction),
        refused_at(b"f:\n rep movsb\n ret", 2, UnknownInstruction),
        refused_at(b"f:\n nopw 0(%rax)\n ret", 2, UnknownInstruction),
        refused_at(b"f:\n nopl 0(%rax)\n ret", 2, UnknownInstruction),
        refused_at(b"f:\n jmpq f\n ret", 2, UnknownInstruction),
        refused_at(b"f:\n seteb %al\n ret", 2, UnknownInstruction),
        refused_at(b"f:\n ret; ret", 2, UnknownInstruction),
    ];
    assert_eq!(rt; first_other(rt.alloc(), &cases), cases.len());
}

#[test]
fn operands_in_a_pool(rt: HostRuntime) {
    let cases = [
        refused_at(b"f:\n movq .LC0(%rip),%rax\n bogus", 2, PoolRefused),
        refused_at(b"f:\n addl a+4(%rip),%ah\n ret", 2, PoolRefused),
        refused_at(b"f:\n cmpl $99999999999,a-18( %rip )\n ret", 2, PoolRefused),
        refused_at(b"f:\n leaq .LC0(%rip),%rax\n jmp .L9", 2, PoolRefused),
        refused_at(b"f:\n cmpl $1,.LC0(%rip)\n .byte 1", 2, PoolRefused),
        refused_at(b"f:\n testb $1,a-4(%rip)\n ret", 2, PoolRefused),
        refused_at(b"f:\n ret\n addl a+65536(%rip),%eax", 3, PoolRefused),
    ];
    assert_eq!(rt; first_other(rt.alloc(), &cases), cases.len());
}

#[test]
fn operands_that_no_form_takes(rt: HostRuntime) {
    let cases = [
        refused_at(b"f:\n addq $1,%ah\n ret", 2, BadOperand),
        refused_at(b"f:\n jne .L9,%rax\n bogus", 2, BadOperand),
        refused_at(
            b"f:\n addq $18446744073709551615,%ah\n bogus",
            2,
            BadOperand,
        ),
        refused_at(b"f:\n addq $08,%rax\n ret", 2, BadOperand),
        refused_at(b"f:\n movq (%rax,%rsp),%rax\n ret", 2, BadOperand),
        refused_at(b"f:\n movq a+04(%rip),%rax\n ret", 2, BadOperand),
        refused_at(b"f:\n movq a + 4(%rip),%rax\n ret", 2, BadOperand),
        refused_at(b"f:\n movq a (%rip),%rax\n ret", 2, BadOperand),
        refused_at(b"f:\n movq 8(%rip),%rax\n ret", 2, BadOperand),
        refused_at(b"f:\n movq a+0x4(%rip),%rax\n ret", 2, BadOperand),
        refused_at(b"f:\n movq 2147483648(%rax),%rax\n ret", 2, BadOperand),
        refused_at(b"f:\n movq -2147483649(%rax),%rax\n ret", 2, BadOperand),
        refused_at(b"f:\n movq (%rdi,%rcx,0x4),%rax\n ret", 2, BadOperand),
        refused_at(b"f:\n movq (%rdi,%rcx,),%rax\n ret", 2, BadOperand),
        refused_at(b"f:\n movq (%rax,,1),%rax\n ret", 2, BadOperand),
        refused_at(b"f:\n movq ((((\n ret", 2, BadOperand),
        refused_at(b"f:\n movq (%rax),(%rbx)\n ret", 2, BadOperand),
        refused_at(b"f:\n jmp $5\n ret", 2, BadOperand),
        refused_at(b"f:\n nop %rax\n ret", 2, BadOperand),
        refused_at(b"f:\n endbr64 %rax\n ret", 2, BadOperand),
        refused_at(b"f:\n ret $8\n", 2, BadOperand),
        refused_at(b"f:\n retq %rax\n", 2, BadOperand),
    ];
    assert_eq!(rt; first_other(rt.alloc(), &cases), cases.len());
}

#[test]
fn numbers_out_of_range(rt: HostRuntime) {
    let cases = [
        refused_at(b"f:\n addq $2147483648,%rax\n bogus", 2, BadNumber),
        refused_at(
            b"f:\n addl $18446744073709551615,%eax\n .byte 1",
            2,
            BadNumber,
        ),
        refused_at(b"f:\n shlq $0,%rax\n jmp .L9", 2, BadNumber),
        refused_at(b"f:\n shrb $8,%al\n ret", 2, BadNumber),
        refused_at(
            b"f:\n movabsq $18446744073709551616,%rax\n ret",
            2,
            BadNumber,
        ),
    ];
    assert_eq!(rt; first_other(rt.alloc(), &cases), cases.len());
}

#[test]
fn labels_that_lead_nowhere(rt: HostRuntime) {
    let cases = [
        refused_at(b"f:\n jne .L9\n bogus", 2, UnknownLabel),
        refused_at(b"f:\n jmp .L1\n.L1:\n", 2, UnknownLabel),
        refused_at(b"f:\n jmp .L1\n.L1:\n .p2align 4\n", 2, UnknownLabel),
        refused_at(b"f:\n jmp g\ng:\n ret", 2, UnknownLabel),
        refused_at(b"g:\nf:\n jmp g\n ret", 3, UnknownLabel),
        refused_at(b"g: f: jmp g\n ret", 1, UnknownLabel),
        refused_at(b"f:\n jmp $foo\n bogus", 2, UnknownLabel),
        refused_at(b"f:\n jne .L1\n.L1:\n bogus", 4, UnknownInstruction),
    ];
    assert_eq!(rt; first_other(rt.alloc(), &cases), cases.len());
}

#[test]
fn functions_that_fall_off(rt: HostRuntime) {
    let cases = [
        refused_at(b"f:", 1, FallsOff),
        refused_at(b"f:\n nop", 2, FallsOff),
        refused_at(b"f:\n nop\n\n", 3, FallsOff),
        refused_at(b"f:\n nop\n .size f,.-f\n bogus", 2, FallsOff),
        refused_at(b"f:\n nop\n.L1: .cfi_endproc\n", 3, FallsOff),
        refused_at(b"f: g: ret", 1, FallsOff),
        refused_at(b"f:\n ret\n jne f\n\n\ng: ret", 5, FallsOff),
        refused_at(b"f:\n ret\n nop # ret\n", 3, FallsOff),
    ];
    assert_eq!(rt; first_other(rt.alloc(), &cases), cases.len());
}
