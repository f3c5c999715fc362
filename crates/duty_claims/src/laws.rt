//! Laws of duties. The functions do nothing; their contracts are the laws.
ghost use Rattle.std.specs.Prelude.{◌≡◌, ◌↔◌, ℕ, ◌<◌, ◌==◌, ◌||◌, List, [], ◌∷◌, length};
ghost use Rattle.std.specs.List.{list_any};
ghost use Rattle.node_values.specs.Nodes.{arguments};
ghost use Rattle.node_values.specs.Sheets.{IsSheet, node_at};
ghost use Rattle.node_values.specs.declared.node.Node.{Node};
ghost use Rattle.duty_claims.specs.Needs.{Needs, is_needed_by};
ghost use Rattle.node_values.specs.Values.{Environment};
ghost use Rattle.duty_claims.specs.Examples.{IsBytesDuty, id};
ghost use Rattle.duty_claims.specs.Truth.{Breaks, IsTrueDuty};
ghost use Rattle.duty_claims.specs.Whole.{IsWhole};
ghost use Rattle.duty_claims.specs.declared.duty.Duty.{Duty};

use crate::duty::Duty;

/// A whole duty is true exactly where no environment breaks it.
pub fn duties_are_true_or_broken(duty: &Duty)
    requires { IsWhole duty.now }
    ensures { IsTrueDuty duty.now ↔ ((e : Environment) → Breaks e duty.now → ⊥) }
{
    duty.sheet.in_order();
}

/// The bytes of both sides at one address are equal where no scratch line is, and may differ where the
/// one byte there is a scratch line.
pub fn bytes_at_one_address()
    ensures outside { (d : Duty) → IsBytesDuty d [] → IsTrueDuty d }
    ensures scratch { (d : Duty) → IsBytesDuty d ((id 1, id 0) ∷ []) → (e : Environment) × Breaks e d }
{}

/// A node of a sheet needs itself and what its arguments need, and nothing else; and what a needed node needs.
pub fn needs_go_on()
    ensures is { (ns : List Node) → IsSheet ns → (k i : ℕ) → i < length ns
        → is_needed_by ns k i ≡ ((i == k) || list_any (is_needed_by ns k) (arguments (node_at ns i))) }
    ensures on { (ns : List Node) → IsSheet ns → (r i k : ℕ) → r < length ns → Needs ns r i → Needs ns i k → Needs ns r k }
{}
