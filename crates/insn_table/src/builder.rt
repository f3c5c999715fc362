//! Builds closed functions from mnemonics and operands.
ghost use Rattle.std.specs.Prelude.{◌≡◌, ◌⊎◌, ◌<◌, ◌^◌, [], IfOk, IfErr, IsOk, OnOk, OnErr, Ok, Err, length};
ghost use Rattle.std.specs.Result.{result_err};
ghost use Rattle.std.specs.List.{list_all};
ghost use Rattle.insn_table.specs.Closed.{IsClosed};
ghost use Rattle.insn_table.specs.declared.build_error.BuildError.{BuildError};
ghost use Rattle.insn_table.specs.Building.{Appends, insn_behind, next_insn, function_made, fault_of, is_inside, goes_inside, is_leaving};

use crate::assembling::{Statement, assemble};
use crate::build_error::BuildError;
use crate::insn::{Bytes, Function, Insn, Insns, Operand};
use align_base::Word;
use insn_ops::Op;
use std::alloc::Global;
use std::marker::Model;

/// The instructions of a function that is being built, which contracts see as a list.
#[derive(Drop)]
pub struct FunctionBuilder {
    kept: Vec<Insn>,
}

impl Model for FunctionBuilder {
    ghost use Rattle.std.specs.Prelude.{List};
    ghost use Rattle.insn_table.specs.declared.insn.Insn.{Insn};
    ghost use Rattle.insn_table.specs.Building.{IsDraft};

    ghost Value = { List Insn };

    ghost view = { λ builder. builder.kept.items };

    ghost invariant = { λ builder. IsDraft builder.kept.items };
}

impl FunctionBuilder {
    /// No instruction.
    pub fn new(alloc: Global) -> FunctionBuilder
        ensures { result ≡ [] }
    {
        FunctionBuilder {
            kept: Vec::new(alloc),
        }
    }

    /// One instruction more, at the end: the one that a mnemonic and its operands make. The first one
    /// is on line 1, and each other on the line behind the one before it. An error leaves the builder
    /// as it was.
    pub fn push(&mut self, mnemonic: &[u8], args: &[Operand]) -> Result<(), BuildError>
        ensures ok { OnOk result (Appends self.old self.new (next_insn self.old mnemonic.now args.now)) }
        ensures err { OnErr result (self.new ≡ self.old) }
        ensures refused { (e : BuildError) → next_insn self.old mnemonic.now args.now ≡ Err e → result ≡ Err e }
        ensures only { IfErr result (λ e.
            (e ≡ BuildError.OutOfMemory) ⊎ (next_insn self.old mnemonic.now args.now ≡ Err e)) }
    {
        let line = (self.kept.len() as u32).saturating_add(1);
        self.push_on_line(line, mnemonic, args)
    }

    /// The same on this line of a text.
    pub fn push_on_line(
        &mut self,
        line: u32,
        mnemonic: &[u8],
        args: &[Operand],
    ) -> Result<(), BuildError>
        ensures ok { OnOk result (Appends self.old self.new (insn_behind self.old mnemonic.now args.now line)) }
        ensures err { OnErr result (self.new ≡ self.old) }
        ensures refused { (e : BuildError) → insn_behind self.old mnemonic.now args.now line ≡ Err e
            → result ≡ Err e }
        ensures only { IfErr result (λ e.
            (e ≡ BuildError.OutOfMemory) ⊎ (insn_behind self.old mnemonic.now args.now line ≡ Err e)) }
    {
        if self.kept.len() >= u32::MAX as usize {
            return Err(BuildError::TooMany);
        }
        let insn = assemble(mnemonic, args, line)?;
        self.kept.push(insn)?;
        Ok(())
    }

    /// The instructions as a closed function of this name, with no pool of constants, or the first of
    /// the faults that keep them from being one.
    pub fn finish(self, name: Word) -> Result<Function, BuildError>
        ensures fault { result_err result ≡ fault_of self }
        ensures only { IsClosed self → IsOk result }
        ensures closed { IfOk result (λ f. IsClosed f.insns) }
        ensures insns { IfOk result (λ f. f.insns ≡ self) }
        ensures name { IfOk result (λ f. f.name ≡ name) }
        ensures pool { IfOk result (λ f. f.pool ≡ []) }
    {
        match fault_of(self.kept.as_slice()) {
            Some(fault) => Err(fault),
            None => Ok(Function {
                name,
                pool: Bytes::new(*self.kept.allocator()),
                insns: Insns::from_vec(self.kept),
            }),
        }
    }
}

/// The first of the faults that keep instructions from being a closed function.
fn fault_of(insns: &[Insn]) -> Option<BuildError>
    requires { length insns.now < 2 ^ 32 }
    ensures { result ≡ fault_of insns.now }
{
    let Some(last) = insns.last() else {
        return Some(BuildError::Empty);
    };
    if !go_inside(insns.len() as u32, insns) {
        return Some(BuildError::TargetOutside);
    }
    if is_leaving(last.op) {
        None
    } else {
        Some(BuildError::FallsOff)
    }
}

/// Whether each target is one of `count` instructions.
fn go_inside(count: u32, insns: &[Insn]) -> bool
    ensures { result ≡ list_all (goes_inside count) insns.now }
{
    insns.iter().all(|insn| goes_inside(count, insn))
}

fn goes_inside(count: u32, insn: &Insn) -> bool
    ensures { result ≡ goes_inside count insn.now }
{
    insn.args.iter().all(|arg| is_inside(count, *arg))
}

fn is_inside(count: u32, operand: Operand) -> bool
    ensures { result ≡ is_inside count operand }
{
    match operand {
        Operand::Target(place) => place < count,
        _ => true,
    }
}

/// Whether it is a return or a jump.
fn is_leaving(op: Op) -> bool
    ensures { result ≡ is_leaving op }
{
    matches!(op, Op::Ret | Op::Jmp)
}

/// The closed function of this name that the statements make, the first one on line 1 and each other
/// on the line behind the one before it, or the first fault.
pub fn assemble_function(
    alloc: Global,
    name: &[u8],
    statements: &[Statement],
) -> Result<Function, BuildError>
    ensures insns { IfOk result (λ f. function_made statements.now ≡ Ok f.insns) }
    ensures name { IfOk result (λ f. f.name ≡ name.now) }
    ensures pool { IfOk result (λ f. f.pool ≡ []) }
    ensures closed { IfOk result (λ f. IsClosed f.insns) }
    ensures fault { IfErr result (λ e. (e ≡ BuildError.OutOfMemory) ⊎ (function_made statements.now ≡ Err e)) }
{
    let mut builder = FunctionBuilder::new(alloc);
    for statement in statements {
        builder.push(statement.mnemonic, &statement.args)?;
    }
    builder.finish(Word::new(alloc, name)?)
}
