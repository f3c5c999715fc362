//! The usage.
ghost use Rattle.std.specs.Prelude.{◌≡◌, string_bytes, IfOk};
ghost use Rattle.align_report.specs.Usage.{usage_text};

use std::alloc::{AllocError, Global};

/// How the program is used.
#[tactic(auto, unfolding(crate::specs::Usage::usage_text))]
pub fn usage_text(alloc: Global) -> Result<String, AllocError>
    ensures { IfOk result (λ text. string_bytes text ≡ usage_text) }
{
    let mut text = String::from_str(alloc, "usage: align decide LEFT F RIGHT G [ADMIT TESTS]\n")?;
    text.push_str("       align check LEFT F RIGHT G ADMIT CERT\n")?;
    text.push_str("       align run FILE F ADMIT TESTS\n")?;
    text.push_str("       align show FILE F\n")?;
    text.push_str("       align sample N\n")?;
    Ok(text)
}
