//! Printed instructions and functions.
use crate::texts::{SUM, function};
use flow_graph::graph;
use insn_table::{Insn, Op, Operand};
use insn_text::{insn_text, show_text};
use std::alloc::Global;
use std::test::Fail;

/// Whether the text of a function is shown so.
fn is_shown(alloc: Global, text: &str, shown: &str) -> Result<bool, Fail> {
    let f = function(alloc, text)?;
    let g = graph(alloc, &f)?;
    let lines = show_text(alloc, &f, &g)?;
    Ok(lines.as_slice() == shown.as_bytes())
}

#[test]
fn functions_are_shown_with_their_cut_points(rt: HostRuntime) -> Result<(), Fail> {
    let plain = "f:\n movq %rdi,%rax\n addq %rsi,%rax\n ret";
    let shown = "function f\ninsns 3\n* 0 movq %rdi,%rax\n  1 addq %rsi,%rax\n* 2 ret\n";
    assert!(rt; is_shown(rt.alloc(), plain, shown)?);
    let sum = "function f
insns 9
* 0 xorl %eax,%eax
  1 testq %rsi,%rsi
  2 je @8
  3 xorl %ecx,%ecx
* 4 addl (%rdi,%rcx,4),%eax
  5 addq $1,%rcx
  6 cmpq %rsi,%rcx
  7 jne @4
* 8 ret
";
    assert!(rt; is_shown(rt.alloc(), SUM, sum)?);
    Ok(())
}

/// The text of the first instruction behind a label.
fn printed(alloc: Global, line: &str) -> Result<String, Fail> {
    let text = format!(in alloc; "f:\n{line}\n.L1: ret\n")?;
    let f = function(alloc, text.as_str())?;
    let first = f.insns.as_slice().first().ok_or("no instruction")?;
    Ok(insn_text(alloc, first)?)
}

/// A line as it is written, and as it is printed.
const LINES: [(&str, &str); 29] = [
    ("movl $0xffffffff,%eax", "movl $-1,%eax"),
    ("movl $2147483648,%eax", "movl $-2147483648,%eax"),
    ("movl $2147483647,%eax", "movl $2147483647,%eax"),
    ("addb $255,%al", "addb $-1,%al"),
    ("addb $-128,%al", "addb $-128,%al"),
    ("addw $40000,%r8w", "addw $-25536,%r8w"),
    ("addq $-1,%rax", "addq $-1,%rax"),
    ("movabsq $18446744073709551615,%rax", "movabsq $-1,%rax"),
    (
        "movabsq $9223372036854775807,%rax",
        "movabsq $9223372036854775807,%rax",
    ),
    (
        "movabsq $9223372036854775808,%rax",
        "movabsq $-9223372036854775808,%rax",
    ),
    ("movq 0(%rdi),%rax", "movq (%rdi),%rax"),
    ("movq -8( %rdi , %rcx ),%rax", "movq -8(%rdi,%rcx,1),%rax"),
    ("movl %esi , 2147483647(%r15)", "movl %esi,2147483647(%r15)"),
    ("leaq (,%rcx,8),%rax", "leaq (,%rcx,8),%rax"),
    ("leaq -0x10(,%rcx,2),%rax", "leaq -16(,%rcx,2),%rax"),
    ("salq %rax", "shlq $1,%rax"),
    ("sall $3,(%rdi)", "shll $3,(%rdi)"),
    ("sarb %dil", "sarb $1,%dil"),
    ("cmovne %rax,%rbx", "cmovneq %rax,%rbx"),
    ("cmovnz (%rax),%ebx", "cmovnel (%rax),%ebx"),
    ("imulq $3,%rax", "imulq $3,%rax"),
    ("imulw $65535,%bx,%ax", "imulw $-1,%bx,%ax"),
    ("setnle %bpl", "setg %bpl"),
    ("jnae .L1", "jb @1"),
    ("jmp .L1", "jmp @1"),
    ("movzbl (%rdi),%eax", "movzbl (%rdi),%eax"),
    ("movslq %edi,%rax", "movslq %edi,%rax"),
    ("cltq", "cltq"),
    ("rep ret", "ret"),
];

#[test]
fn instructions_are_printed(rt: HostRuntime) -> Result<(), Fail> {
    for (line, text) in LINES {
        assert_eq!(rt; printed(rt.alloc(), line)?.as_str(), text);
    }
    Ok(())
}

/// `leaq` of this operand into `%rax`.
fn address_of(operand: Operand) -> Insn {
    Insn {
        op: Op::Lea,
        w: 64,
        vex: false,
        args: [
            operand,
            Operand::Reg { n: 0, w: 64 },
            Operand::Nothing,
            Operand::Nothing,
        ],
        line: 1,
    }
}

#[test]
fn addresses_without_registers_and_constants_are_printed(rt: HostRuntime) -> Result<(), Fail> {
    for (disp, text) in [(0, "leaq 0,%rax"), (-5, "leaq -5,%rax"), (7, "leaq 7,%rax")] {
        let insn = address_of(Operand::Mem {
            base: None,
            index: None,
            scale: 1,
            disp,
        });
        assert_eq!(rt; insn_text(rt.alloc(), &insn)?.as_str(), text);
    }
    let constant = address_of(Operand::Pool(16));
    assert_eq!(rt;
        insn_text(rt.alloc(), &constant)?.as_str(),
        "leaq pool+16(%rip),%rax"
    );
    Ok(())
}
