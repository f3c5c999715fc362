//! What the reader of a statement asks of the labels of the body.
ghost use Rattle.std.specs.Prelude.{◌≡◌, ℕ, List, Option};

/// The labels of a function's body.
pub trait Labels {
    /// The place of the instruction that a label of this name leads to, if there is such a label and an
    /// instruction of the body stands behind it.
    ghost target: { Self → List ℕ → Option ℕ };

    /// The place of the instruction that a label of this name leads to.
    fn target(&self, name: &[u8]) -> Option<u32>
        ensures { result ≡ target self.now name.now };
}
