//! Reads the registers of a test.
ghost use Rattle.std.specs.Prelude.{◌≡◌, ◌<◌, ◌≤◌, Some, option_map, slice_get};
ghost use Rattle.serde_json.specs.View.{view};
ghost use Rattle.register_names.specs.Names.{register_names};
ghost use Rattle.tests_text.specs.Reading as reading;
ghost use Rattle.tests_text.specs.Shapes.{default_register, is_object, member_of};

use crate::shape::{Kind, is_object, member_of};
use register_names::name_of;
use serde_json::Value;

// The name of general register `n`.
fn register_name(n: usize) -> &'static str
    requires { n < 16 }
    ensures { result.now ≡ reading.name_at (register_names 64) n }
{
    name_of(64, n as u8)
}

// What register `n` holds in test `k` where it is not named.
fn default_register(k: u64, n: u64) -> u64
    requires test { k ≤ 64 }
    requires number { n < 16 }
    ensures { result ≡ default_register k n }
{
    (1 << 40) * (n + 1) + (1 << 20) * k * (2 * n + 1)
}

// The value of register `n` in test `k`, by its member.
fn register_of(k: u64, n: u64, found: Option<&Value>) -> Option<u64>
    requires test { k ≤ 64 }
    requires number { n < 16 }
    ensures { result ≡ reading.register_of k n (option_map (λ v. view v.now) found.entry) }
{
    match found {
        None => Some(default_register(k, n)),
        Some(value) => value.as_u64(),
    }
}

// Whether there is nothing, or an object of this kind.
pub(crate) fn is_object_or_none(kind: Kind, found: Option<&Value>) -> bool
    ensures { result ≡ reading.is_object_or_none (option_map (λ v. view v.now) found.entry) (is_object kind) }
{
    match found {
        None => true,
        Some(value) => is_object(kind, value),
    }
}

// The registers of test `k`, by the member `regs`.
#[tactic(auto, unfolding(crate::specs::Reading::registers_of))]
pub(crate) fn registers_of(k: u64, found: Option<&Value>) -> Option<[u64; 16]>
    requires { k ≤ 64 }
    ensures { result ≡ reading.registers_of k (option_map (λ v. view v.now) found.entry) }
{
    if !is_object_or_none(Kind::Registers, found) {
        return None;
    }
    named_registers(k, found)
}

// The same of an object whose members are registers, or of nothing.
fn named_registers(k: u64, found: Option<&Value>) -> Option<[u64; 16]>
    requires { k ≤ 64 }
    ensures { result ≡ reading.collected (λ n. reading.register_of k n
        (member_of (option_map (λ v. view v.now) found.entry) (reading.name_at (register_names 64) n))) 0 16 }
{
    let mut regs = [0; 16];
    for n in 0..16usize {
        let Some(value) = register_of(k, n as u64, member_of(found, register_name(n))) else {
            return None;
        };
        regs[n] = value;
    }
    Some(regs)
}
