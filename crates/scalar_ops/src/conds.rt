//! Whether a condition holds of flags.

ghost use Rattle.std.specs.Prelude.{◌≡◌};
ghost use Rattle.insn_semantics.specs.Conditions.{cond_of};

use insn_ops::{Cond, Flags};

/// Whether a condition holds; `None` where a flag that it reads is unset.
pub fn holds(cond: Cond, flags: &Flags) -> Option<bool>
    ensures { result ≡ cond_of cond flags.now }
{
    match cond {
        Cond::E => flags.zf,
        Cond::Ne => Some(!flags.zf?),
        Cond::B => flags.cf,
        Cond::Ae => Some(!flags.cf?),
        Cond::Be => is_below_or_equal(flags),
        Cond::A => Some(!is_below_or_equal(flags)?),
        Cond::L => is_less(flags),
        Cond::Ge => Some(!is_less(flags)?),
        Cond::Le => is_less_or_equal(flags),
        Cond::G => Some(!is_less_or_equal(flags)?),
        Cond::S => flags.sf,
        Cond::Ns => Some(!flags.sf?),
        Cond::O => flags.of,
        Cond::No => Some(!flags.of?),
        Cond::P => flags.pf,
        Cond::Np => Some(!flags.pf?),
    }
}

/// Carry or zero.
fn is_below_or_equal(flags: &Flags) -> Option<bool>
    ensures { result ≡ cond_of Cond.Be flags.now }
{
    let carry = flags.cf?;
    let zero = flags.zf?;
    Some(carry | zero)
}

/// Sign and overflow differ: below as signed numbers.
fn is_less(flags: &Flags) -> Option<bool>
    ensures { result ≡ cond_of Cond.L flags.now }
{
    let sign = flags.sf?;
    let overflow = flags.of?;
    Some(sign ^ overflow)
}

/// Zero, or below as signed numbers.
fn is_less_or_equal(flags: &Flags) -> Option<bool>
    ensures { result ≡ cond_of Cond.Le flags.now }
{
    let zero = flags.zf?;
    let less = is_less(flags)?;
    Some(zero | less)
}
