//! What texts are answered.
use certificate_file::{CertRefusal, read_certificate, write_certificate};
use std::alloc::{AllocError, Global};

/// What came of a text.
#[derive(Clone, Copy, Debug, PartialEq, Eq)]
pub(crate) enum Answer {
    /// It is that of a certificate.
    Ok,
    /// It is that of a certificate, which is written as another text.
    Otherwise,
    /// It is none.
    Refused(CertRefusal),
}

/// The answer with this refusal.
fn refused(refusal: CertRefusal) -> Result<Answer, AllocError> {
    match refusal {
        CertRefusal::Memory => Err(AllocError),
        _ => Ok(Answer::Refused(refusal)),
    }
}

/// What the text is answered.
pub(crate) fn answer_of(alloc: Global, text: &[u8]) -> Result<Answer, AllocError> {
    match read_certificate(alloc, text) {
        Ok(_) => Ok(Answer::Ok),
        Err(refusal) => refused(refusal),
    }
}

/// What the text is answered, where its certificate is written again.
pub(crate) fn answer_again(alloc: Global, text: &[u8]) -> Result<Answer, AllocError> {
    match read_certificate(alloc, text) {
        Ok(certificate) => {
            let Ok(written) = write_certificate(alloc, &certificate) else {
                return Err(AllocError);
            };
            if written.as_slice() == text {
                Ok(Answer::Ok)
            } else {
                Ok(Answer::Otherwise)
            }
        }
        Err(refusal) => refused(refusal),
    }
}
