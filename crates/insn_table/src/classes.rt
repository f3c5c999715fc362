//! The classes of operands: which kinds of operands each takes, and which numbers.
ghost use Rattle.std.specs.Prelude.{◌≡◌};
ghost use Rattle.insn_table.specs.Classes.{takes_kind, is_register, is_vector_register, is_number, is_addressed, is_memory, number_fits, is_within, is_immediate, greatest_immediate, immediate_depth};

use crate::insn::Operand;

/// What one operand of a form may be. The numbers are widths in bits.
#[derive(Clone, Copy, Debug, PartialEq, Eq)]
pub enum Class {
    /// A general register.
    Register(u32),
    /// What may be written: a general register or memory.
    Writable(u32),
    /// What is only read: a general register, memory or the pool.
    Readable(u32),
    /// An immediate, or what is only read.
    Source(u32),
    /// An immediate of the form's width.
    Immediate(u32),
    /// Any immediate.
    Wide,
    /// A count of a shift: an immediate from 1 to the width less 1.
    Count(u32),
    /// Memory, of which the address alone is taken.
    Address,
    /// The target of a jump.
    Label,
    /// A vector register.
    VectorRegister(u32),
    /// A vector register, memory or the pool.
    VectorSource(u32),
    /// An immediate of eight bits: a count, or what controls a shuffle.
    Control,
    /// No operand.
    Absent,
}

/// Whether an operand is of this class, whatever its number.
pub fn takes_kind(class: Class, operand: Operand) -> bool
    ensures { result ≡ takes_kind class operand }
{
    match class {
        Class::Register(w) => is_register(w, operand),
        Class::Writable(w) => is_register(w, operand) || is_addressed(operand),
        Class::Readable(w) => is_register(w, operand) || is_memory(operand),
        Class::Source(w) => { is_number(operand) || is_register(w, operand) || is_memory(operand) }
        Class::Immediate(_) | Class::Wide | Class::Count(_) | Class::Control => is_number(operand),
        Class::Address => is_addressed(operand),
        Class::Label => matches!(operand, Operand::Target(_)),
        Class::VectorRegister(w) => is_vector_register(w, operand),
        Class::VectorSource(w) => is_vector_register(w, operand) || is_memory(operand),
        Class::Absent => matches!(operand, Operand::Nothing),
    }
}

fn is_register(width: u32, operand: Operand) -> bool
    ensures { result ≡ is_register width operand }
{
    match operand {
        Operand::Reg { w, .. } => w == width,
        _ => false,
    }
}

fn is_vector_register(width: u32, operand: Operand) -> bool
    ensures { result ≡ is_vector_register width operand }
{
    match operand {
        Operand::Vec { w, .. } => w == width,
        _ => false,
    }
}

fn is_number(operand: Operand) -> bool
    ensures { result ≡ is_number operand }
{
    matches!(operand, Operand::Imm(_))
}

/// Whether it is memory at an address that registers make.
fn is_addressed(operand: Operand) -> bool
    ensures { result ≡ is_addressed operand }
{
    matches!(operand, Operand::Mem { .. })
}

/// Whether it is memory, in the pool or elsewhere.
pub fn is_memory(operand: Operand) -> bool
    ensures { result ≡ is_memory operand }
{
    matches!(operand, Operand::Mem { .. } | Operand::Pool(_))
}

/// Whether the number of an operand that has one is in the range of this class.
pub fn number_fits(class: Class, operand: Operand) -> bool
    ensures { result ≡ number_fits class operand }
{
    match operand {
        Operand::Imm(v) => is_within(class, v),
        _ => true,
    }
}

/// Whether a number is in the range of this class.
fn is_within(class: Class, v: u64) -> bool
    ensures { result ≡ is_within class v }
{
    match class {
        Class::Source(w) | Class::Immediate(w) => is_immediate(w, v),
        Class::Count(w) => 0 < v && v < w as u64,
        Class::Control => v < 256,
        _ => true,
    }
}

/// Whether a number, from -2^63 to 2^63 - 1 and written modulo 2^64, is an immediate of a form of `w`
/// bits.
fn is_immediate(w: u32, v: u64) -> bool
    ensures { result ≡ is_immediate w v }
{
    v <= greatest_immediate(w) || v >= 0u64.wrapping_sub(immediate_depth(w))
}

fn greatest_immediate(w: u32) -> u64
    ensures { result ≡ greatest_immediate w }
{
    match w {
        8 => 0xff,
        16 => 0xffff,
        32 => 0xffff_ffff,
        _ => 0x7fff_ffff,
    }
}

/// How far below 0 the least immediate of a form of `w` bits lies.
fn immediate_depth(w: u32) -> u64
    ensures { result ≡ immediate_depth w }
{
    match w {
        8 => 0x80,
        16 => 0x8000,
        _ => 0x8000_0000,
    }
}
