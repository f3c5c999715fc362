//! Words: names and arguments, as bytes.
ghost use Rattle.std.specs.Prelude.{◌≡◌, List, ℕ, IfOk};

use outcomes::Memory;
use std::alloc::Global;
use std::marker::Model;

/// A name of a file or a function, or an argument of the command line. Any bytes.
///
/// Contracts see it as the list of its bytes.
#[derive(Drop)]
pub struct Word {
    text: Vec<u8>,
}

impl Model for Word {
    ghost Value = { List ℕ };

    ghost view = { λ w. w.text.items };
}

impl Word {
    /// A copy of these bytes.
    pub fn new(alloc: Global, bytes: &[u8]) -> Result<Word, Memory>
        ensures { IfOk result (λ w. w ≡ bytes.now) }
    {
        let text = Vec::from_slice(alloc, bytes)?;
        Ok(Word { text })
    }

    /// Its bytes.
    pub fn bytes(&self) -> &[u8]
        ensures { result.now ≡ self.now }
    {
        self.text.as_slice()
    }
}
