//! The gate, which is told before each leaf of parallel work. No command uses it yet.

/// Told before each leaf of parallel work: a refutation that is checked, or a duty that is tried.
pub trait Gate {
    fn enter(&self, leaf: u32);
}

/// The gate that lets all work pass.
#[derive(Clone, Copy, Debug)]
pub struct OpenGate;

impl Gate for OpenGate {
    fn enter(&self, leaf: u32) {
        let _ = leaf;
    }
}
