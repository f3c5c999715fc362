//! The state of the machine, its steps and its runs.
ghost use Rattle.std.specs.Prelude.{◌≡◌, ℕ, ◌+◌, ◌-◌, ◌*◌, ◌/◌, ◌%◌, ◌^◌, ◌<◌, ◌≤◌, Some, IfOk, IfSome, slice_get, slice_index, true, false, length, if◌then◌else◌};
ghost use Rattle.std.specs.List.{list_all};
ghost use Rattle.machine.specs.Access as access;
ghost use Rattle.machine.specs.Family.{holds_of};
ghost use Rattle.machine.specs.Machine.{IsStart};
ghost use Rattle.machine.specs.Operands as operands;
ghost use Rattle.machine.specs.Ready.{finished_row, IsReady};
ghost use Rattle.machine.specs.Spanned.{IsSpanned};
ghost use Rattle.runs.specs.Run.{run_of};
ghost use Rattle.machine.specs.Step as steps;
ghost use Rattle.runs.specs.Stepping.{StepsAs};
ghost use Rattle.insn_semantics.specs.Words.{bit};
ghost use Rattle.machine.specs.Runnable.{HasRowOf, IsRunnable, IsWidth};
ghost use Rattle.insn_table.specs.Closed.{IsClosed};
ghost use Rattle.insn_table.specs.Table.{HasRegisters};
ghost use Rattle.memory_spans.specs.Spans.{AreOrdered};
ghost use Rattle.machine.specs.Kept.{IsKept, pure_of};
ghost use Rattle.machine.specs.Start.{IsCopy, kept_start};
ghost use Rattle.machine.specs.Vectors as vectors;

use crate::operands::{
    Family, arity, condition, destination, displacement_of, jump_place, last_operand, low_bits,
    op_family, operand, register_after, register_number, source, source_place, source_width,
    target, target_width, width_at, writes,
};
use crate::ranges::{are_regs, are_vecs};
use crate::vector_access::alignment;
use crate::vectors::{clear_above, control, word_vector, written};
use insn_ops::Flags;
use insn_table::{Function, Insn, Op, Operand};
use lane_ops::vector;
use lane_views::Bytes32;
use memory_spans::{
    Region, Span, byte_at, copy_spans, load, load_in, put_word, spans_hold_bytes, store, word_in,
    word_of, zeros,
};
use outcomes::Memory;
use runs::{RunEnd, StepEnd};
use scalar_ops::{flags, scalar};
use std::alloc::Global;
use std::marker::Model;

/// The state of the machine. Contracts see it as what is kept of one, and `pure_of` says what that
/// means.
#[derive(Drop)]
pub struct State {
    regs: [u64; 16],
    entry: [u64; 16],
    flags: Flags,
    vecs: [Bytes32; 16],
    spans: Vec<Span>,
    regions: Vec<Region>,
    stack: u64,
    place: u32,
}

impl Model for State {
    ghost use Rattle.machine.specs.Kept.{Kept};

    ghost Value = { Kept };

    ghost use Rattle.machine.specs.Holding.{IsHeld, kept_of};

    ghost view = { kept_of };

    ghost invariant = { λ s. IsHeld (kept_of s) };
}

const UNSET: Flags = Flags {
    cf: None,
    pf: None,
    zf: None,
    sf: None,
    of: None,
};

impl State {
    /// The start state with these registers, vectors, spans, regions and number of declared stack
    /// bytes. The spans are in order and apart, and have each byte of the regions and of the stack
    /// range.
    pub fn new(
        regs: [u64; 16],
        vecs: [Bytes32; 16],
        spans: Vec<Span>,
        regions: Vec<Region>,
        stack: u64,
    ) -> State
        requires { IsKept (kept_start regs vecs spans.items regions.items stack) }
        ensures kept { result ≡ kept_start regs vecs spans.items regions.items stack }
        ensures start { IsStart (pure_of result) }
    {
        // what the types say of the values
        are_regs(&regs);
        are_vecs(&vecs);
        spans_hold_bytes(&spans);
        State {
            regs,
            entry: regs,
            flags: UNSET,
            vecs,
            spans,
            regions,
            stack,
            place: 0,
        }
    }

    /// A copy.
    pub fn copy(&self, alloc: Global) -> Result<State, Memory>
        ensures { IfOk result (IsCopy self.now) }
    {
        let spans = copy_spans(alloc, &self.spans)?;
        let regions = Vec::from_slice(alloc, &self.regions)?;
        Ok(State {
            regs: self.regs,
            entry: self.entry,
            flags: self.flags,
            vecs: self.vecs,
            spans,
            regions,
            stack: self.stack,
            place: self.place,
        })
    }

    /// What general register `n` holds.
    pub fn reg(&self, n: u8) -> u64
        requires { n < 16 }
        ensures { result ≡ slice_index self.now.regs n }
    {
        self.regs[n as usize]
    }

    /// What general register `n` held at the entry.
    pub fn entry(&self, n: u8) -> u64
        requires { n < 16 }
        ensures { result ≡ slice_index self.now.entry n }
    {
        self.entry[n as usize]
    }

    /// What vector register `n` holds.
    pub fn vec(&self, n: u8) -> &Bytes32
        requires { n < 16 }
        ensures { slice_get self.now.vecs n ≡ Some result.now.bytes }
    {
        &self.vecs[n as usize]
    }

    /// The byte at an address.
    pub fn byte(&self, at: u64) -> u8
        ensures { result ≡ (pure_of self.now).memory at }
    {
        byte_at(&self.spans, at)
    }

    /// The spans, in order and apart.
    pub(crate) fn spans(&self) -> &[Span]
        ensures spans { result.now ≡ self.now.spans }
        ensures ordered { AreOrdered 0 result.now }
    {
        &self.spans
    }

    /// How many declared stack bytes there are.
    pub(crate) fn stack(&self) -> u64
        ensures value { result ≡ self.now.stack }
        ensures small { result ≤ 4096 }
    {
        self.stack
    }

    /// The place of the next instruction.
    pub fn place(&self) -> u32
        ensures { result ≡ self.now.place }
    {
        self.place
    }
}

/// What a step reads.
impl State {
    /// What a base or an index adds to an address.
    fn register_or_zero(&self, n: Option<u8>) -> u64
        requires { IfSome n (λ r. r < 16) }
        ensures { result ≡ operands.register_or_zero self.now.regs n }
    {
        match n {
            None => 0,
            Some(n) => self.regs[n as usize],
        }
    }

    /// The address of a memory operand, 0 of another.
    fn address(&self, operand: Operand) -> u64
        requires { HasRegisters operand }
        ensures { result ≡ operands.address_of self.now.regs operand }
    {
        match operand {
            Operand::Mem {
                base,
                index,
                scale,
                disp,
            } => self
                .register_or_zero(base)
                .wrapping_add(self.register_or_zero(index).wrapping_mul(scale as u64))
                .wrapping_add(displacement_of(disp)),
            _ => 0,
        }
    }

    /// What an operand of `w` bits holds.
    fn value(&self, pool: &[u8], w: u32, operand: Operand) -> u64
        requires width { IsWidth w }
        requires numbers { HasRegisters operand }
        ensures value { result ≡ operands.value_of pool.now w (pure_of self.now) operand }
        ensures below { result < 2 ^ w }
    {
        match operand {
            Operand::Reg { n, .. } => low_bits(w, self.regs[n as usize]),
            Operand::Imm(v) => low_bits(w, v),
            Operand::Mem { .. } => word_of(&self.spans, self.address(operand), w / 8),
            Operand::Pool(at) => word_in(pool, at as usize, w / 8),
            // No other operand is read as a number.
            _ => 0,
        }
    }

    /// Whether some region has the bytes and the right.
    fn may_access(&self, at: u64, bytes: u32, write: bool) -> bool
        ensures { result ≡ access.is_allowed (pure_of self.now) (record { at = at; bytes = bytes; write = write }) }
    {
        self.regions.iter().any(|region| (!write || region.write)
            && has_access(region, at, bytes as u64))
    }

    /// Whether operand `k` may be accessed, if it is in memory.
    fn allows_operand(&self, insn: &Insn, k: usize) -> bool
        requires small { k < 4 }
        requires numbers { (k : ℕ) → HasRegisters (operands.operand insn.now k) }
        ensures { result ≡ list_all (access.is_allowed (pure_of self.now))
            (access.access_at insn.now (pure_of self.now) k) }
    {
        let operand = operand(insn, k);
        match operand {
            Operand::Mem { .. } => self.may_access(
                self.address(operand),
                width_at(insn, k) / 8,
                k + 1 == arity(insn) && writes(insn.op),
            ),
            _ => true,
        }
    }

    /// Whether each operand in memory may be accessed.
    fn allows_operands(&self, insn: &Insn) -> bool
        requires numbers { (k : ℕ) → HasRegisters (operands.operand insn.now k) }
        ensures { result ≡ list_all (access.is_allowed (pure_of self.now))
            (access.operand_accesses insn.now (pure_of self.now)) }
    {
        self.allows_operand(insn, 0)
            && self.allows_operand(insn, 1)
            && self.allows_operand(insn, 2)
            && self.allows_operand(insn, 3)
    }

    /// Whether eight bytes lie among the declared stack bytes.
    fn is_on_stack(&self, at: u64) -> bool
        ensures { result ≡ access.is_on_stack (pure_of self.now) at }
    {
        let base = self.entry[4].wrapping_sub(self.stack);
        self.stack >= 8 && at.wrapping_sub(base) <= self.stack - 8
    }

    /// Whether the instruction's tests hold.
    fn allows(&self, family: Family, insn: &Insn) -> bool
        requires numbers { (k : ℕ) → HasRegisters (operands.operand insn.now k) }
        ensures { result ≡ access.allows_by family insn.now (pure_of self.now) }
    {
        match family {
            Family::Pushing => self.is_on_stack(self.regs[4].wrapping_sub(8)),
            Family::Popping => self.is_on_stack(self.regs[4]),
            Family::Return => self.regs[4] == self.entry[4],
            Family::Address => true,
            Family::OnVectors => self.allows_operands(insn) && self.are_aligned(insn),
            _ => self.allows_operands(insn),
        }
    }

    /// Whether each operand in memory stands at an address that the operation takes.
    fn are_aligned(&self, insn: &Insn) -> bool
        requires numbers { (k : ℕ) → HasRegisters (operands.operand insn.now k) }
        ensures { result ≡ access.are_aligned insn.now (pure_of self.now) }
    {
        self.aligned_at(insn, 0)
            && self.aligned_at(insn, 1)
            && self.aligned_at(insn, 2)
            && self.aligned_at(insn, 3)
    }

    /// Whether operand `k` stands so, if it is in memory.
    fn aligned_at(&self, insn: &Insn, k: usize) -> bool
        requires numbers { (k : ℕ) → HasRegisters (operands.operand insn.now k) }
        ensures { result ≡ access.aligned_at insn.now (pure_of self.now) k }
    {
        let n = alignment(insn.op, insn.vex, insn.w);
        let operand = operand(insn, k);
        match operand {
            Operand::Mem { .. } => self.address(operand) % n == 0,
            Operand::Pool(at) => at as u64 % n == 0,
            _ => true,
        }
    }
}

/// What a step changes.
impl State {
    /// Writes the `w` bits of a word to an operand.
    fn put(&mut self, target: Operand, w: u32, word: u64)
        requires width { IsWidth w }
        requires word { word < 2 ^ w }
        requires numbers { HasRegisters target }
        requires spanned { IsSpanned self.old w target }
        ensures state { pure_of self.new ≡ operands.with_value w (pure_of self.old) target word }
        ensures place { self.new.place ≡ self.old.place }
    {
        match target {
            Operand::Reg { n, .. } => {
                let old = self.regs[n as usize];
                self.regs[n as usize] = register_after(w, old, word);
            }
            Operand::Mem { .. } => {
                let at = self.address(target);
                put_word(&mut self.spans, at, w / 8, word);
            }
            _ => {}
        }
    }

    /// Writes a row's result, where the operation writes one.
    fn put_result(&mut self, insn: &Insn, word: u64)
        requires width { IsWidth insn.now.w }
        requires word { word < 2 ^ insn.now.w }
        requires numbers { (n : ℕ) → HasRegisters (operands.operand insn.now n) }
        requires spanned { access.writes insn.now.op ≡ true
            → IsSpanned self.old insn.now.w (steps.target_operand insn.now.op insn.now) }
        ensures state { pure_of self.new ≡ (if access.writes insn.now.op
            then operands.with_value insn.now.w (pure_of self.old) (steps.target_operand insn.now.op insn.now) word
            else pure_of self.old) }
        ensures place { self.new.place ≡ self.old.place }
    {
        if writes(insn.op) {
            self.put(target(insn), insn.w, word);
        }
    }

    /// Ends a row: its result and its flags.
    fn complete(&mut self, insn: &Insn, word: u64, flags: Flags)
        requires width { IsWidth insn.now.w }
        requires word { word < 2 ^ insn.now.w }
        requires numbers { (n : ℕ) → HasRegisters (operands.operand insn.now n) }
        requires spanned { access.writes insn.now.op ≡ true
            → IsSpanned self.old insn.now.w (steps.target_operand insn.now.op insn.now) }
        ensures { pure_of self.new ≡ finished_row insn.now (pure_of self.old) word flags }
    {
        self.put_result(insn, word);
        self.flags = flags;
    }

    /// What a row's destination holds.
    #[tactic(auto, using(crate::proofs::Targets::targets))]
    fn destination_value(&self, pool: &[u8], insn: &Insn) -> u64
        requires width { IsWidth insn.now.w }
        requires numbers { (n : ℕ) → HasRegisters (operands.operand insn.now n) }
        ensures value { result ≡ steps.destination_value pool.now insn.now (pure_of self.now) }
        ensures below { result < 2 ^ insn.now.w }
    {
        self.value(pool, insn.w, destination(insn))
    }

    /// What a row's source holds, but for `lea`.
    #[tactic(auto, using(crate::proofs::Targets::targets))]
    fn source_value(&self, pool: &[u8], insn: &Insn) -> u64
        requires width { IsWidth insn.now.w }
        requires numbers { (n : ℕ) → HasRegisters (operands.operand insn.now n) }
        requires row { HasRowOf insn.now.op insn.now }
        ensures value { result ≡ operands.value_of pool.now (access.source_width insn.now.op insn.now.w)
            (pure_of self.now) (steps.source_operand insn.now.op insn.now) }
        ensures below { result < 2 ^ access.source_width insn.now.op insn.now.w }
    {
        self.value(pool, source_width(insn.op, insn.w), source(insn))
    }

    /// A computing row.
    fn compute(&mut self, pool: &[u8], insn: &Insn)
        requires { IsReady Family.Computing insn.now self.old }
        ensures { pure_of self.new ≡ steps.after_row pool.now insn.now (pure_of self.old) 0 }
    {
        let a = self.destination_value(pool, insn);
        let b = self.source_value(pool, insn);
        let word = scalar(insn.op, insn.w, a, b);
        let after = flags(insn.op, insn.w, a, b, self.flags);
        self.complete(insn, word, after);
    }

    /// `lea`: the source's address.
    fn load_address(&mut self, pool: &[u8], insn: &Insn)
        requires { IsReady Family.Address insn.now self.old }
        ensures { pure_of self.new ≡ steps.after_row pool.now insn.now (pure_of self.old) 0 }
    {
        let word = low_bits(insn.w, self.address(operand(insn, 0)));
        let flags = self.flags;
        self.complete(insn, word, flags);
    }

    /// A move by condition, which writes the old value where the condition does not hold.
    fn choose(&mut self, pool: &[u8], insn: &Insn, holds: bool)
        requires { IsReady Family.Choice insn.now self.old }
        ensures { pure_of self.new ≡ steps.after_row pool.now insn.now (pure_of self.old) (bit holds) }
    {
        let a = self.destination_value(pool, insn);
        let b = self.source_value(pool, insn);
        let word = if holds { b } else { a };
        let flags = self.flags;
        self.complete(insn, word, flags);
    }

    /// A byte set by condition.
    fn set(&mut self, pool: &[u8], insn: &Insn, holds: bool)
        requires { IsReady Family.Setting insn.now self.old }
        ensures { pure_of self.new ≡ steps.after_row pool.now insn.now (pure_of self.old) (bit holds) }
    {
        let word = if holds { 1 } else { 0 };
        let flags = self.flags;
        self.complete(insn, word, flags);
    }

    /// `push`: the old value, also of the stack pointer itself.
    fn push(&mut self, insn: &Insn)
        requires { IsReady Family.Pushing insn.now self.old }
        ensures { pure_of self.new ≡ steps.after_push insn.now (pure_of self.old) }
    {
        let n = register_number(operand(insn, 0));
        let value = self.regs[n as usize];
        let below = self.regs[4].wrapping_sub(8);
        put_word(&mut self.spans, below, 8, value);
        self.regs[4] = below;
    }

    /// `pop`: into the stack pointer, the value read stays.
    fn pop(&mut self, insn: &Insn)
        requires { IsReady Family.Popping insn.now self.old }
        ensures { pure_of self.new ≡ steps.after_pop insn.now (pure_of self.old) }
    {
        let n = register_number(operand(insn, 0));
        let at = self.regs[4];
        let value = word_of(&self.spans, at, 8);
        self.regs[4] = at.wrapping_add(8);
        self.regs[n as usize] = value;
    }

    /// The law that what is kept of a state is so.
    fn is_kept(&self)
        ensures { IsKept self.now }
    {
        // a field is read, so that the state is looked into
        let _stack = self.stack;
    }

    /// What an operand of `w` bits gives as a vector.
    fn vector(&self, pool: &[u8], w: u32, operand: Operand) -> Bytes32
        requires width { w ≤ 256 }
        requires numbers { HasRegisters operand }
        ensures { result.bytes ≡ vectors.operand_vector pool.now w (pure_of self.now) operand }
    {
        match operand {
            Operand::Vec { n, .. } => self.vecs[n as usize],
            Operand::Reg { n, .. } => word_vector(self.regs[n as usize]),
            Operand::Mem { .. } => load(&self.spans, self.address(operand), w / 8),
            Operand::Pool(at) => load_in(pool, at as usize, w / 8),
            // No other operand is read as a vector.
            _ => zeros(),
        }
    }

    /// What an operand that is a vector register holds.
    fn register_vector(&self, operand: Operand) -> Bytes32
        requires { HasRegisters operand }
        ensures { result.bytes ≡ vectors.register_vector (pure_of self.now) operand }
    {
        match operand {
            Operand::Vec { n, .. } => self.vecs[n as usize],
            _ => zeros(),
        }
    }

    /// Writes a vector to an operand: to memory its `w` low bits, to a general register 64 bits.
    fn put_vector(&mut self, vex: bool, w: u32, target: Operand, vector: &Bytes32)
        requires width { w ≤ 256 }
        requires numbers { HasRegisters target }
        requires spanned { IsSpanned self.old w target }
        ensures { pure_of self.new ≡ vectors.with_vector vex (w / 8) (pure_of self.old) target vector.now.bytes }
    {
        match target {
            Operand::Vec { n: r, .. } => {
                let new = written(vex, &self.vecs[r as usize], vector);
                self.vecs[r as usize] = new;
            }
            Operand::Reg { n: r, .. } => self.regs[r as usize] = vector.lane(64, 0),
            Operand::Mem { .. } => {
                let at = self.address(target);
                store(&mut self.spans, at, &vector.bytes[..w as usize / 8]);
            }
            _ => {}
        }
    }

    /// A row over vectors.
    fn compute_vectors(&mut self, pool: &[u8], insn: &Insn)
        requires { IsReady Family.OnVectors insn.now self.old }
        ensures { pure_of self.new ≡ vectors.after_vectors insn.now.op pool.now insn.now (pure_of self.old) }
    {
        let Op::Vector(op) = insn.op else {
            return;
        };
        let place = source_place(insn);
        let first = self.register_vector(operand(insn, place + 1));
        let second = self.vector(pool, source_width(insn.op, insn.w), operand(insn, place));
        let result = vector(op, insn.w, control(operand(insn, 0)), &first, &second);
        // what the target's bytes need
        self.is_kept();
        let width = target_width(insn.op, insn.w);
        let target = last_operand(insn);
        self.put_vector(insn.vex, width, target, &result);
    }

    /// `vzeroupper`.
    fn clear_uppers(&mut self)
        ensures { pure_of self.new ≡ vectors.after_clearing (pure_of self.old) }
    {
        clear_above(&mut self.vecs);
    }

    /// How an instruction whose tests hold changes registers, flags, vectors and memory, where its
    /// condition has this value.
    fn change(&mut self, family: Family, pool: &[u8], insn: &Insn, holds: bool)
        requires { IsReady family insn.now self.old }
        ensures { pure_of self.new ≡ steps.after_change family pool.now insn.now (pure_of self.old) holds }
    {
        match family {
            Family::Computing => self.compute(pool, insn),
            Family::Address => self.load_address(pool, insn),
            Family::Choice => self.choose(pool, insn, holds),
            Family::Setting => self.set(pool, insn, holds),
            Family::Pushing => self.push(insn),
            Family::Popping => self.pop(insn),
            Family::OnVectors => self.compute_vectors(pool, insn),
            Family::Clearing => self.clear_uppers(),
            Family::Branch | Family::Jump | Family::Return | Family::Idle => {}
        }
    }

    /// Where it leads: `None` where it returns.
    fn leads_to(&self, family: Family, insn: &Insn, holds: bool) -> Option<u32>
        requires next { self.now.place + 1 < 2 ^ 32 }
        ensures { result ≡ steps.leads_to family insn.now self.now.place holds }
    {
        let next = self.place + 1;
        match family {
            Family::Branch => Some(if holds {
                jump_place(operand(insn, 0))
            } else {
                next
            }),
            Family::Jump => Some(jump_place(operand(insn, 0))),
            Family::Return => None,
            _ => Some(next),
        }
    }

    /// An instruction whose tests hold and whose condition has this value.
    fn execute(&mut self, family: Family, pool: &[u8], insn: &Insn, holds: bool) -> StepEnd
        requires ready { IsReady family insn.now self.old }
        requires next { self.old.place + 1 < 2 ^ 32 }
        ensures { StepsAs (steps.goes family pool.now insn.now (pure_of self.old) holds) (pure_of self.old) result
            (pure_of self.new) }
    {
        let Some(place) = self.leads_to(family, insn, holds) else {
            return StepEnd::Return;
        };
        self.change(family, pool, insn, holds);
        self.place = place;
        StepEnd::Next
    }

    /// The value of the operation's condition, `None` where a flag that it reads is unset. An operation
    /// without one has any value.
    fn condition_value(&self, op: Op) -> Option<bool>
        ensures { result ≡ holds_of op self.now.flags }
    {
        match condition(op) {
            None => Some(false),
            Some(cond) => scalar_ops::holds(cond, &self.flags),
        }
    }

    /// Runs an instruction.
    fn run_insn(&mut self, pool: &[u8], insn: &Insn) -> StepEnd
        requires runnable { (n : ℕ) × IsRunnable n insn.now }
        requires next { self.old.place + 1 < 2 ^ 32 }
        ensures { StepsAs (steps.insn_step pool.now insn.now (pure_of self.old)) (pure_of self.old) result
            (pure_of self.new) }
    {
        let Some(holds) = self.condition_value(insn.op) else {
            return StepEnd::Unset;
        };
        let family = op_family(insn.op);
        if !self.allows(family, insn) {
            return StepEnd::Fault;
        }
        self.execute(family, pool, insn, holds)
    }

    /// Runs one instruction of the function.
    pub fn step(&mut self, f: &Function) -> StepEnd
        requires closed { IsClosed f.now.insns }
        requires inside { self.old.place < length f.now.insns }
        ensures steps { StepsAs (steps.step_of f.now.insns f.now.pool (pure_of self.old)) (pure_of self.old) result
            (pure_of self.new) }
        ensures inside { self.new.place < length f.now.insns }
    {
        let insn = f.insns.as_slice()[self.place as usize];
        self.run_insn(f.pool.as_slice(), &insn)
    }

    /// Runs the function for at most `n` steps.
    pub fn run(&mut self, f: &Function, n: u64) -> RunEnd
        requires closed { IsClosed f.now.insns }
        requires inside { self.old.place < length f.now.insns }
        ensures runs { run_of (steps.step_of f.now.insns f.now.pool) (pure_of self.old) n ≡ (pure_of self.new, result) }
        ensures inside { self.new.place < length f.now.insns }
    {
        for i in 0..n {
            match self.step(f) {
                StepEnd::Next => {}
                StepEnd::Return => return RunEnd::Returned(i + 1),
                StepEnd::Fault => return RunEnd::Faulted(i + 1),
                StepEnd::Unset => return RunEnd::Unset(i + 1),
            }
        }
        RunEnd::Running
    }
}

/// Whether the region has the bytes.
fn has_access(region: &Region, at: u64, bytes: u64) -> bool
    ensures { result ≡ access.holds_access region.now (record { at = at; bytes = bytes; write = false }) }
{
    region.len >= bytes && at.wrapping_sub(region.base) <= region.len - bytes
}
