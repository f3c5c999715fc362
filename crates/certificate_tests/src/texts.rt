//! Certificates as texts. Each refusal is worked out by hand from the form of certificates.
use certificate_file::CertRefusal::{BadLine, Truncated, Version};
use certificate_file::{CertRefusal, read_certificate, write_certificate};
use std::alloc::Global;
use std::process::Abort;
use std::test::Fail;

/// Two functions that never end: one jumps to itself, the other adds and jumps back. All six goals are
/// the constant 1.
const STANDING: &str =
    "align-certificate 1\nnodes 3\nnode 0 0 0 1 1 0\nnode 1 - - 0 0 0\nnode 2 0 0 0 0 0\nedges 2\nedge 0 2\nleft 0\nright 0\nedge 2 2\nleft 1 0\nright 2 0 1\nduties 6\nleaf 1\nr 0 1 1 2\nleaf 1\nr 0 1 1 2\nleaf 1\nr 0 1 1 2\nleaf 1\nr 0 1 1 2\nleaf 1\nr 0 1 1 2\nleaf 1\nr 0 1 1 2\nend\n";

/// Invariants of both kinds, and atoms of each kind.
const INVARIANTS: &str =
    "align-certificate 1\nnodes 3\nnode 0 0 0 1 1 0\nnode 1 - - 0 0 0\nnode 2 4 7 0 0 5\ninv lin 64 2 1 l.rax 18446744073709551615 r.r10 5\ninv lin 8 0 0\ninv ult 32 e.rdi #7\ninv ule 32 l.y3.5 r.y15.0\ninv sle 64 l.r11 #0\nedges 0\nduties 0\nend\n";

/// A split of two accesses, with a refutation of its own and a tree for each relation.
const SPLIT: &str =
    "align-certificate 1\nnodes 0\nedges 0\nduties 1\nsplit 0 1 2 apart off -7 6\nr -1 2 0 3\ne 4 5 0\ng 4 5 0\nt 6 1 2 3\nn 6 2 1 -1 18446744073709551615 2\nq 6 7 3 0\nleaf 0\nleaf 1\nr 0 1\nend\n";

/// Whether the text is read, and written again as it was.
fn comes_back(alloc: Global, text: &str) -> Result<bool, Fail> {
    match read_certificate(alloc, text.as_bytes()) {
        Ok(certificate) => {
            let written = write_certificate(alloc, &certificate)?;
            Ok(written.as_slice() == text.as_bytes())
        }
        Err(_) => Ok(false),
    }
}

/// What a text that is no certificate is refused for.
fn refusal(alloc: Global, text: &[u8]) -> Option<CertRefusal> {
    match read_certificate(alloc, text) {
        Ok(_) => None,
        Err(refusal) => Some(refusal),
    }
}

#[test]
fn worked_certificates_come_back(rt: HostRuntime) -> Result<(), Fail> {
    assert!(rt; comes_back(rt.alloc(), STANDING)?);
    assert!(rt; comes_back(rt.alloc(), INVARIANTS)?);
    assert!(rt; comes_back(rt.alloc(), SPLIT)?);
    Ok(())
}

/// Asserts that each front of the text is refused as truncated.
fn assert_fronts_are_truncated(rt: &impl Abort, alloc: Global, text: &[u8]) {
    for n in 0..text.len() {
        assert!(rt; refusal(alloc, &text[..n]) == Some(Truncated));
    }
}

#[test]
fn each_front_is_truncated(rt: HostRuntime) {
    assert_fronts_are_truncated(&rt, rt.alloc(), STANDING.as_bytes());
    assert_fronts_are_truncated(&rt, rt.alloc(), SPLIT.as_bytes());
}

/// Asserts that each text is refused so.
fn assert_refusals(rt: &impl Abort, alloc: Global, cases: &[(&str, CertRefusal)]) {
    for (text, expected) in cases {
        assert!(rt; refusal(alloc, text.as_bytes()) == Some(*expected));
    }
}

#[test]
fn texts_are_refused(rt: HostRuntime) {
    let cases = [
        ("align-certificate 2\nnodes 3\n", Version),
        ("align-certificate 11", Version),
        ("align-certificate 1", Truncated),
        ("align-certificate ", Truncated),
        ("align-certificate 01", BadLine(1)),
        ("align-certificate 1\r\n", BadLine(1)),
        ("align-certificate 1\nnodes 18446744073709551615", Truncated),
        (
            "align-certificate 1\nnodes 18446744073709551616",
            BadLine(2),
        ),
        ("align-certificate 1\nnodes 01", BadLine(2)),
        ("align-certificate 1\nnodes 1\nnode 1", BadLine(3)),
        ("align-certificate 1\nnodes 2\nnode 0 4294967295", Truncated),
        (
            "align-certificate 1\nnodes 2\nnode 0 4294967296",
            BadLine(3),
        ),
        ("align-certificate 1\nnodes 2\nnode 0 -", BadLine(3)),
    ];
    assert_refusals(&rt, rt.alloc(), cases.as_slice());
}
