//! Why a text is no certificate.
use outcomes::Memory;
use thiserror::Error;

/// Why a text is no certificate. Lines are counted from 1; those above 2^32 - 1 are given as that.
#[derive(Clone, Copy, Debug, PartialEq, Eq, Error)]
pub enum CertRefusal {
    /// The first line names another version.
    #[error("the certificate is of another version")]
    Version,
    /// The text is the front of a certificate's, and not all of it.
    #[error("the certificate is cut off")]
    Truncated,
    /// Up to the end of this line, and of none before it, the text is the front of no certificate's.
    #[error("line {0} is no line of a certificate, or may not stand there")]
    BadLine(u32),
    /// Out of memory.
    #[error("out of memory")]
    Memory,
}

impl From<Memory> for CertRefusal {
    ghost use Rattle.std.specs.Prelude.{◌≡◌};
    ghost use Rattle.certificate_file.specs.declared.refusal.CertRefusal.TheVariants as refusals;

    ghost from_gives = { λ _ e. e ≡ refusals.Memory };

    fn from(_failed: Memory) -> CertRefusal {
        CertRefusal::Memory
    }
}
