//! Literals and clauses.
ghost use Rattle.std.specs.Prelude.{◌≡◌, List, map, IfOk};
ghost use Rattle.std.specs.List.Sorted.{IsStrictlyIncreasing};

use outcomes::Memory;
use smallvec::SmallVec;
use std::alloc::Global;
use std::marker::Model;

/// A variable, numbered from 1, or its negation. (`Default` serves the room that a clause keeps for
/// literals that it does not have yet.)
#[derive(Clone, Copy, Debug, Default, PartialEq, Eq)]
pub struct Lit {
    pub var: u32,
    pub neg: bool,
}

/// A clause of literals, in order of variable, each variable once.
///
/// Contracts see it as the list of its literals.
#[derive(Drop)]
pub struct Clause {
    kept: SmallVec<Lit, 4>,
}

impl Model for Clause {
    ghost use Rattle.std.specs.Prelude.{List, map};
    ghost use Rattle.std.specs.List.Sorted.{IsStrictlyIncreasing};
    ghost use Rattle.clauses.specs.declared.clause.Lit.{Lit};

    ghost Value = { List Lit };

    ghost view = { λ c. c.kept.items };

    ghost invariant = { λ c. IsStrictlyIncreasing (map (λ l. l.var) c.kept.items) };
}

impl Clause {
    /// The clause of these literals, which are in order of variable, each variable once.
    pub fn of(alloc: Global, lits: &[Lit]) -> Result<Clause, Memory>
        requires { IsStrictlyIncreasing (map (λ l. l.var) lits.now) }
        ensures { IfOk result (λ c. c ≡ lits.now) }
    {
        let kept = SmallVec::from_slice(alloc, lits)?;
        Ok(Clause { kept })
    }

    /// Its literals, in order of variable, each variable once.
    pub fn lits(&self) -> &[Lit]
        ensures items { result.now ≡ self.now }
        ensures ordered { IsStrictlyIncreasing (map (λ l. l.var) self.now) }
    {
        self.kept.as_slice()
    }
}
