//! Where two returned states first differ.
ghost use Rattle.std.specs.Prelude.{◌≡◌, ◌+◌, ◌^◌, ◌<◌, ◌≤◌, IfNone, IfSome, List, MatchBool, length, true, ℕ};
ghost use Rattle.std.specs.List.{AllByRecursion};
ghost use Rattle.insn_ops.specs.declared.output.Output.{Output};
ghost use Rattle.machine.specs.Difference as difference;
ghost use Rattle.machine.specs.Difference.{Agree, AgreeBefore, IsFirstByte, IsFirstDifference, IsFirstOutput, IsOutput, OtherByte, SameByte, SameEnd};
ghost use Rattle.machine.specs.Differing as differing;
ghost use Rattle.machine.specs.Differing.{AreSame, IsFirstAmong};
ghost use Rattle.memory_spans.specs.Spans.{AreOrdered, is_spanned, spans_address};
ghost use Rattle.machine.specs.Kept.{pure_of};
ghost use Rattle.machine.specs.Machine.{IsInStack, Machine};
ghost use Rattle.machine.specs.declared.difference.Difference.{Difference};

use crate::operands::low_bits;
use crate::state::State;
use insn_ops::Output;
use memory_spans::Span;

/// Where two returned states first differ.
#[derive(Clone, Copy, Debug, PartialEq, Eq)]
pub enum Difference {
    /// The number of the live output, counted from 0 in the order of the list.
    Out(u32),
    /// The address of the byte.
    Byte(u64),
}

/// The law of differences: two states with a first difference don't have the same end, and have no
/// other first difference. It does nothing.
pub fn difference_law()
    ensures excludes { (live : List Output) (scratch : List (ℕ × ℕ)) (s t : Machine) (d : Difference)
        → IsFirstDifference live scratch s t d → SameEnd live scratch s t → ⊥ }
    ensures one { (live : List Output) (scratch : List (ℕ × ℕ)) (s t : Machine) (d e : Difference)
        → IsFirstDifference live scratch s t d → IsFirstDifference live scratch s t e → d ≡ e }
{}

impl State {
    /// The first difference of two returned states, `None` where they have the same end: the live
    /// outputs in their order, then the bytes from the least address on that lie neither in a scratch
    /// line, which is a base and a length, nor in the stack range of `self`.
    pub fn first_difference(
        &self,
        other: &State,
        live: &[Output],
        scratch: &[(u64, u64)],
    ) -> Option<Difference>
        requires outputs { AllByRecursion IsOutput live.now }
        requires few { length live.now < 2 ^ 32 }
        ensures none { IfNone result (SameEnd live.now scratch.now (pure_of self.now) (pure_of other.now)) }
        ensures some { IfSome result (IsFirstDifference live.now scratch.now (pure_of self.now) (pure_of other.now)) }
    {
        if let Some(k) = self.first_output(other, live) {
            return Some(Difference::Out(k));
        }
        let at = self.first_byte(other, scratch)?;
        Some(Difference::Byte(at))
    }

    /// The number of the first live output that differs.
    fn first_output(&self, other: &State, live: &[Output]) -> Option<u32>
        requires outputs { AllByRecursion IsOutput live.now }
        requires few { length live.now < 2 ^ 32 }
        ensures none { IfNone result (AgreeBefore live.now (pure_of self.now) (pure_of other.now) (length live.now)) }
        ensures some { IfSome result (IsFirstOutput live.now (pure_of self.now) (pure_of other.now)) }
    {
        for k in 0..live.len() {
            if !self.agrees(other, live[k]) {
                return Some(k as u32);
            }
        }
        None
    }

    /// Whether an output is equal in both.
    fn agrees(&self, other: &State, output: Output) -> bool
        requires { IsOutput output }
        ensures { MatchBool result (Agree (pure_of self.now) (pure_of other.now) output)
            (Agree (pure_of self.now) (pure_of other.now) output → ⊥) }
    {
        match output {
            Output::Reg { n, w } => low_bits(w, self.reg(n)) == low_bits(w, other.reg(n)),
            Output::Vec { n, w } => {
                let len = (w / 8) as usize;
                self.vec(n).bytes[..len] == other.vec(n).bytes[..len]
            }
        }
    }

    /// The first address at which the bytes are compared and differ. A byte in no span is 0 in both.
    fn first_byte(&self, other: &State, scratch: &[(u64, u64)]) -> Option<u64>
        ensures none { IfNone result ((x : ℕ) → SameByte scratch.now (pure_of self.now) (pure_of other.now) x) }
        ensures some { IfSome result (IsFirstByte scratch.now (pure_of self.now) (pure_of other.now)) }
    {
        let here = self.first_in_spans(other, scratch, self.spans());
        let there = self.first_in_spans(other, scratch, other.spans());
        lesser(here, there)
    }

    /// The first of them in spans.
    fn first_in_spans(&self, other: &State, scratch: &[(u64, u64)], spans: &[Span]) -> Option<u64>
        requires { AreOrdered 0 spans.now }
        ensures none { IfNone result (AreSame (is_spanned spans.now)
            scratch.now (pure_of self.now) (pure_of other.now)) }
        ensures some { IfSome result (IsFirstAmong (is_spanned spans.now)
            scratch.now (pure_of self.now) (pure_of other.now)) }
    {
        for span in spans {
            if let Some(at) = self.first_in_span(other, scratch, span) {
                return Some(at);
            }
        }
        None
    }

    /// The first of them in a span.
    fn first_in_span(&self, other: &State, scratch: &[(u64, u64)], span: &Span) -> Option<u64>
        requires { span.now.at + length span.now.bytes.items ≤ 2 ^ 64 }
        ensures none { IfNone result (AreSame (spans_address span.now)
            scratch.now (pure_of self.now) (pure_of other.now)) }
        ensures some { IfSome result (IsFirstAmong (spans_address span.now)
            scratch.now (pure_of self.now) (pure_of other.now)) }
        ensures within { IfSome result (λ at. at < span.now.at + length span.now.bytes.items) }
    {
        for i in 0..span.bytes.len() {
            let at = span.at + i as u64;
            if self.differs_at(other, scratch, at) {
                return Some(at);
            }
        }
        None
    }

    /// Whether the bytes at an address are compared and differ.
    fn differs_at(&self, other: &State, scratch: &[(u64, u64)], at: u64) -> bool
        ensures { MatchBool result (OtherByte scratch.now (pure_of self.now) (pure_of other.now) at)
            (SameByte scratch.now (pure_of self.now) (pure_of other.now) at) }
    {
        self.byte(at) != other.byte(at) && !self.is_in_stack(at) && !is_in_scratch(scratch, at)
    }

    /// Whether the address lies in the stack range.
    fn is_in_stack(&self, at: u64) -> bool
        ensures { MatchBool result (IsInStack (pure_of self.now) at) (IsInStack (pure_of self.now) at → ⊥) }
    {
        let base = self.entry(4).wrapping_sub(self.stack());
        at.wrapping_sub(base) < self.stack() + 8
    }
}

/// Whether the address lies in a scratch line.
fn is_in_scratch(scratch: &[(u64, u64)], at: u64) -> bool
    ensures { result ≡ difference.is_in_scratch scratch.now at }
{
    scratch
        .iter()
        .any(|(base, len)| at.wrapping_sub(*base) < *len)
}

/// The lesser of two numbers, or the only one.
fn lesser(a: Option<u64>, b: Option<u64>) -> Option<u64>
    ensures { result ≡ differing.lesser a b }
{
    match (a, b) {
        (Some(a), Some(b)) => Some(a.min(b)),
        (None, at) | (at, None) => at,
    }
}
