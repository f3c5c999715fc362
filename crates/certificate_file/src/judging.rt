//! Reading a certificate.
ghost use Rattle.std.specs.Prelude.{◌≡◌, ◌⊎◌, Result, Ok, Err};
ghost use Rattle.certificate_file.specs.declared.certificate.Certificate.{Certificate};
ghost use Rattle.certificate_file.specs.declared.refusal.CertRefusal.{CertRefusal};
ghost use Rattle.certificate_file.specs.Judging.{answer_of, is_other_version, line_number, refusal_of};
ghost use Rattle.certificate_file.specs.Texts.{CertificateFits, IsVerdict};

use crate::certificate::Certificate;
use crate::refusal::CertRefusal;
use crate::tree_lines::certificate;
use crate::written_trees::write_certificate;
use std::alloc::Global;
use text_codes::{Stop, behind};
use text_parts::{capped_decimal, first_part};

/// Whether the first line names a version other than 1.
#[tactic(auto, unfolding(crate::specs::Judging::is_other_version))]
fn is_other_version(text: &[u8]) -> bool
    ensures { result ≡ is_other_version text.now }
{
    match behind(text, b"align-certificate ") {
        Err(_) => false,
        Ok(rest) => {
            let (number, _) = first_part(rest, b'\n');
            match capped_decimal(number) {
                None => false,
                Some(n) => n != 1,
            }
        }
    }
}

/// The number of the line in which this is what is left of the text.
fn line_number(text: &[u8], left: &[u8]) -> u32
    ensures { result ≡ line_number text.now left.now }
{
    let read = text.len().saturating_sub(left.len());
    let newlines = text[..read].iter().filter(|b| **b == b'\n').count();
    u32::try_from(newlines as u64 + 1).unwrap_or(u32::MAX)
}

/// Why a text is refused of which this is left.
fn refusal_of(text: &[u8], left: &[u8]) -> CertRefusal
    ensures { result ≡ refusal_of text.now left.now }
{
    match left {
        [] => CertRefusal::Truncated,
        [_, ..] => CertRefusal::BadLine(line_number(text, left)),
    }
}

/// The answer to a text, unless memory runs out.
fn answer_of(alloc: Global, text: &[u8]) -> Result<Certificate, CertRefusal>
    ensures { (result ≡ Err CertRefusal.Memory) ⊎ (result ≡ answer_of text.now) }
{
    if is_other_version(text) {
        return Err(CertRefusal::Version);
    }
    match certificate(alloc, text) {
        Ok((found, left)) => match left {
            [] => Ok(found),
            [_, ..] => Err(CertRefusal::BadLine(line_number(text, left))),
        },
        Err(Stop::At(left)) => Err(refusal_of(text, left)),
        Err(Stop::Memory) => Err(CertRefusal::Memory),
    }
}

/// Reads a certificate. A refusal is the first that holds: another version, a front of a certificate, or
/// the first line that no certificate has there.
pub fn read_certificate(alloc: Global, text: &[u8]) -> Result<Certificate, CertRefusal>
    ensures right { IsVerdict text.now result }
    ensures only { (r : Result Certificate CertRefusal) → IsVerdict text.now r
        → (r ≡ Err CertRefusal.Memory) ⊎ ((result ≡ Err CertRefusal.Memory) ⊎ (result ≡ r)) }
{
    answer_of(alloc, text)
}

/// The law of what is written: read again it is the certificate, unless memory runs out.
pub fn read_back(alloc: Global, certificate: &Certificate) -> Result<Certificate, CertRefusal>
    requires { CertificateFits certificate.now }
    ensures { (result ≡ Err CertRefusal.Memory) ⊎ (result ≡ Ok certificate.now) }
{
    let text = write_certificate(alloc, certificate)?;
    read_certificate(alloc, text.as_slice())
}
