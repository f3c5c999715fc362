//! The functions of the tests.
ghost use Rattle.std.specs.Prelude.{IfOk};
ghost use Rattle.insn_table.specs.Closed.{IsClosed};

use align_base::Word;
use att_reader::read_function;
use insn_table::Function;
use std::alloc::Global;
use std::test::Fail;

/// The sum of the 32-bit words from `(%rdi)` on, of which `%rsi` says how many there are. Its loop
/// begins at place 4.
pub const SUM: &str = "f:
 xorl %eax,%eax
 testq %rsi,%rsi
 je .L1
 xorl %ecx,%ecx
.L2:
 addl (%rdi,%rcx,4),%eax
 addq $1,%rcx
 cmpq %rsi,%rcx
 jne .L2
.L1:
 ret
";

/// The function `f` of a text.
pub(crate) fn function(alloc: Global, text: &str) -> Result<Function, Fail>
    ensures { IfOk result (λ f. IsClosed f.insns) }
{
    let name = Word::new(alloc, b"f")?;
    Ok(read_function(alloc, text.as_bytes(), &name)?)
}
