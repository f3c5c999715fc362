//! A shelf in memory that never fails.
ghost use Rattle.std.specs.Prelude.{◌≡◌, Some, None, option_map};
ghost use Rattle.align_base.specs.Files.{held_or_empty};
ghost use Rattle.align_base.specs.Shelf.{new_account};

use crate::files::{copied_within, first_held, put_first};
use crate::shelf::{PutFault, Shelf, TakeFault};
use crate::word::Word;
use std::alloc::Global;

/// Files in memory. It never fails: a name that no file has holds the empty file. It tells what it
/// holds.
#[derive(Drop)]
pub struct SureShelf {
    files: Vec<(Word, Vec<u8>)>,
    calls: u64,
    seen: u64,
}

impl SureShelf {
    ghost use Rattle.align_base.specs.SureKinds.{sure_files};

    /// A shelf of these files. Of equal names the first file holds.
    pub fn new(files: Vec<(Word, Vec<u8>)>) -> SureShelf
        ensures files { sure_files result ≡ files.items }

        // What it is as a shelf.
        ensures account { ⟦<SureShelf as Shelf>⟧.account result
            ≡ new_account (Some (λ name. Some (held_or_empty files.items name))) }
    {
        SureShelf {
            files,
            calls: 0,
            seen: 0,
        }
    }

    /// What the name holds. It is never `None`.
    pub fn held(&self, name: &Word) -> Option<&[u8]>
        ensures { option_map (λ bytes. bytes.now) result ≡ Some (held_or_empty (sure_files self.now) name.now) }
    {
        match first_held(self.files.as_slice(), name.bytes()) {
            Some(bytes) => Some(bytes),
            None => Some(&[]),
        }
    }
}

impl Shelf for SureShelf {
    ghost use Rattle.align_base.specs.SureKinds.{sure_shelf_account};

    ghost account = { λ s. sure_shelf_account s };

    fn take(&mut self, alloc: Global, name: &Word, limit: u64) -> Result<Vec<u8>, TakeFault> {
        self.calls = self.calls.saturating_add(1);
        match first_held(self.files.as_slice(), name.bytes()) {
            None => {
                self.seen = 0;
                Ok(Vec::new(alloc))
            }
            Some(bytes) => {
                self.seen = bytes.len() as u64;
                copied_within(alloc, bytes, limit)
            }
        }
    }

    fn put(&mut self, alloc: Global, name: &Word, bytes: &[u8]) -> Result<(), PutFault> {
        self.calls = self.calls.saturating_add(1);
        let copy = Word::new(alloc, name.bytes())?;
        put_first(&mut self.files, alloc, copy, bytes)
    }
}
