//! The loops that are run.
ghost use Rattle.std.specs.Prelude.{◌≡◌, IfOk, codes};
ghost use Rattle.insn_table.specs.Closed.{IsClosed};
ghost use Rattle.step_bench.specs.Loop as loops;
ghost use Rattle.step_bench.specs.Loop.{IsLoop};

use align_base::Word;
use insn_table::{BuildError, Function, FunctionBuilder, Operand};
use std::alloc::Global;

/// Register `n` of `w` bits.
fn register(n: u8, w: u32) -> Operand
    ensures { result ≡ Operand.Reg n w }
{
    Operand::Reg { n, w }
}

/// Four bytes at a register, and four times `%rcx` further on.
fn element(base: u8) -> Operand
    ensures { result ≡ loops.element base }
{
    Operand::Mem {
        base: Some(base),
        index: Some(1),
        scale: 4,
        disp: 0,
    }
}

/// The loop, for ever:
///
///     addl (%rdi,%rcx,4), %eax
///     movl %eax, (%rsi,%rcx,4)
///     incb %cl
///     jmp to the first
pub fn endless_loop(alloc: Global) -> Result<Function, BuildError>
    ensures name { IfOk result (λ f. f.name ≡ codes "loop") }
    ensures closed { IfOk result (λ f. IsClosed f.insns) }
    ensures insns { IfOk result (λ f. IsLoop f.insns) }
{
    let mut builder = FunctionBuilder::new(alloc);
    builder.push(b"addl", &[element(7), register(0, 32)])?;
    builder.push(b"movl", &[register(0, 32), element(6)])?;
    builder.push(b"incb", &[register(1, 8)])?;
    builder.push(b"jmp", &[Operand::Target(0)])?;
    builder.finish(Word::new(alloc, b"loop")?)
}

/// A loop over vectors, for ever:
///
///     movdqu (%rdi), %xmm1
///     paddd %xmm1, %xmm0
///     addq $16, %rcx
///     cmpq $1, %rcx
///     jne to the first
///     jmp to the first
pub fn vector_loop(alloc: Global) -> Result<Function, BuildError>
    ensures name { IfOk result (λ f. f.name ≡ codes "vectors") }
    ensures closed { IfOk result (λ f. IsClosed f.insns) }
{
    let source = Operand::Mem {
        base: Some(7),
        index: None,
        scale: 1,
        disp: 0,
    };
    let (sum, loaded) = (Operand::Vec { n: 0, w: 128 }, Operand::Vec { n: 1, w: 128 });
    let first = Operand::Target(0);
    let mut builder = FunctionBuilder::new(alloc);
    builder.push(b"movdqu", &[source, loaded])?;
    builder.push(b"paddd", &[loaded, sum])?;
    builder.push(b"addq", &[Operand::Imm(16), register(1, 64)])?;
    builder.push(b"cmpq", &[Operand::Imm(1), register(1, 64)])?;
    builder.push(b"jne", &[first])?;
    builder.push(b"jmp", &[first])?;
    builder.finish(Word::new(alloc, b"vectors")?)
}
