//! A span: bytes from an address on.
ghost use Rattle.std.specs.Prelude.{◌≡◌, IfOk};
ghost use Rattle.memory_spans.specs.Spans.{contents};

use outcomes::Memory;
use std::alloc::Global;

/// Bytes from an address on.
#[derive(Drop)]
pub struct Span {
    pub at: u64,
    pub bytes: Vec<u8>,
}

/// A copy of spans.
pub fn copy_spans(alloc: Global, spans: &[Span]) -> Result<Vec<Span>, Memory>
    ensures { IfOk result (λ copied. contents copied.items ≡ contents spans.now) }
{
    let mut copied = Vec::new(alloc);
    for span in spans {
        let bytes = Vec::from_slice(alloc, &span.bytes)?;
        copied.push(Span { at: span.at, bytes })?;
    }
    Ok(copied)
}
