//! Which invariants fit: widths, numbers, registers and lanes.
ghost use Rattle.std.specs.Prelude.{◌≡◌, ◌↔◌, ◌^◌, ◌<◌, ◌≤◌, IsTrue};
ghost use Rattle.product_automaton.specs.Rules.{AtomFits, BoundFits, EquationFits, IsInvariantWidth, KeepsInvariants, TermFits};

use crate::product::{Atom, Bound1, Invariant};

/// Whether the invariant keeps the sixth rule.
pub(crate) fn invariant_fits(invariant: &Invariant) -> bool
    ensures { IsTrue result ↔ KeepsInvariants invariant.now }
{
    match invariant {
        Invariant::Lin { w, terms, c } => equation_fits(*w, terms.as_slice(), *c),
        Invariant::Less { w, a, b, .. } => {
            is_invariant_width(*w) && bound_fits(*w, *a) && bound_fits(*w, *b)
        }
    }
}

/// Whether the parts of an equation fit.
fn equation_fits(width: u32, terms: &[(u64, Atom)], constant: u64) -> bool
    ensures { IsTrue result ↔ EquationFits width terms.now constant }
{
    is_invariant_width(width)
        && terms.len() <= 33
        && terms.iter().all(|term| term_fits(width, *term))
        && is_below_power(constant, width)
}

/// Whether it is the width of an invariant.
fn is_invariant_width(width: u32) -> bool
    ensures { IsTrue result ↔ IsInvariantWidth width }
{
    1 <= width && width <= 64
}

/// Whether the coefficient and the atom fit.
fn term_fits(width: u32, term: (u64, Atom)) -> bool
    requires { width ≤ 64 }
    ensures { IsTrue result ↔ TermFits width term }
{
    is_below_power(term.0, width) && atom_fits(width, term.1)
}

/// Whether a side of a comparison fits.
fn bound_fits(width: u32, bound: Bound1) -> bool
    requires { width ≤ 64 }
    ensures { IsTrue result ↔ BoundFits width bound }
{
    match bound {
        Bound1::Of(atom) => atom_fits(width, atom),
        Bound1::Num(number) => is_below_power(number, width),
    }
}

/// Whether the number is below 2^width.
fn is_below_power(number: u64, width: u32) -> bool
    requires { width ≤ 64 }
    ensures { IsTrue result ↔ (number < 2 ^ width) }
{
    width == 64 || number < 1u64 << width
}

/// Whether the atom is of a register, or of a lane of this width inside its vector.
fn atom_fits(width: u32, atom: Atom) -> bool
    requires { width ≤ 64 }
    ensures { IsTrue result ↔ AtomFits width atom }
{
    match atom {
        Atom::Reg(_, register) | Atom::Entry(register) => register < 16,
        Atom::Lane(_, vector, lane) => {
            vector < 16 && [8, 16, 32, 64].contains(&width) && (lane as u32 + 1) * width <= 256
        }
    }
}
