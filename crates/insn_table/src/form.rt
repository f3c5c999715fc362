//! Forms: the classes of an instruction's four operands.
ghost use Rattle.std.specs.Prelude.{◌≡◌, ◌≤◌, List, [], ◌∷◌, take};
ghost use Rattle.insn_table.specs.Classes.{none, one, two, three, four};

use crate::classes::Class;
use std::marker::Model;

/// The forms of an operation, at most three, which contracts see as a list.
#[derive(Drop)]
pub struct Forms {
    kept: [[Class; 4]; 3],
    count: usize,
}

impl Model for Forms {
    ghost use Rattle.std.specs.Prelude.{◌≤◌, List, take};
    ghost use Rattle.insn_table.specs.declared.classes.Class.{Class};

    ghost Value = { List (List Class) };

    ghost view = { λ f. take f.count f.kept };

    ghost invariant = { λ f. f.count ≤ 3 };
}

impl Forms {
    /// Its forms.
    pub fn as_slice(&self) -> &[[Class; 4]]
        ensures { result.now ≡ self.now }
    {
        &self.kept[..self.count]
    }

    /// No form.
    pub fn none() -> Forms
        ensures { result ≡ [] }
    {
        Forms {
            kept: [[Class::Absent; 4]; 3],
            count: 0,
        }
    }

    /// One form.
    pub fn one(form: [Class; 4]) -> Forms
        ensures { result ≡ form ∷ [] }
    {
        Forms {
            kept: [form, form, form],
            count: 1,
        }
    }

    /// Two forms.
    pub fn two(first: [Class; 4], second: [Class; 4]) -> Forms
        ensures { result ≡ first ∷ second ∷ [] }
    {
        Forms {
            kept: [first, second, second],
            count: 2,
        }
    }

    /// Three forms.
    pub fn three(first: [Class; 4], second: [Class; 4], third: [Class; 4]) -> Forms
        ensures { result ≡ first ∷ second ∷ third ∷ [] }
    {
        Forms {
            kept: [first, second, third],
            count: 3,
        }
    }
}

/// No operands.
pub fn no_operand() -> [Class; 4]
    ensures { result ≡ none }
{
    [Class::Absent; 4]
}

/// One operand.
pub fn one(first: Class) -> [Class; 4]
    ensures { result ≡ one first }
{
    [first, Class::Absent, Class::Absent, Class::Absent]
}

/// Two operands.
pub fn two(first: Class, second: Class) -> [Class; 4]
    ensures { result ≡ two first second }
{
    [first, second, Class::Absent, Class::Absent]
}

/// Three operands.
pub fn three(first: Class, second: Class, third: Class) -> [Class; 4]
    ensures { result ≡ three first second third }
{
    [first, second, third, Class::Absent]
}

/// Four operands.
pub fn four(first: Class, second: Class, third: Class, fourth: Class) -> [Class; 4]
    ensures { result ≡ four first second third fourth }
{
    [first, second, third, fourth]
}
