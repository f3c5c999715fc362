//! The files of the working folder.
ghost use Rattle.std.specs.Prelude.{◌≡◌, None};
ghost use Rattle.align_base.specs.Reading.{ReadWithin};
ghost use Rattle.align_base.specs.Shelf.{new_account};

use crate::shelf::{Call, PutFault, Shelf, TakeFault};
use crate::whole::{Reading, read_whole, write_whole};
use crate::word::Word;
use std::alloc::Global;
use std::rt::Files;
use std::{fs, str};

/// The files of the working folder, by their paths from it. A name that is not UTF-8 is a fault. It
/// tells nothing of what the files hold: that they stand as they were read is not proved.
#[derive(Drop)]
pub struct FolderShelf<'a, R: Files> {
    rt: &'a R,
    calls: u64,
    faults: u64,
    seen: u64,
    last_failed: Option<Call>,
}

impl<'a, R: Files> FolderShelf<'a, R> {
    /// The working folder.
    pub fn new(rt: &'a R) -> FolderShelf<'a, R>
        ensures account { ⟦<FolderShelf<'a, R> as Shelf>⟧.account result ≡ new_account None }
    {
        FolderShelf {
            rt,
            calls: 0,
            faults: 0,
            seen: 0,
            last_failed: None,
        }
    }
}

/// The file of this path from the working folder, read up to the limit.
fn read_path<R: Files>(rt: &R, alloc: Global, path: &[u8], limit: u64) -> (Reading, u64)
    ensures { ReadWithin limit result.0 result.1 }
{
    match str::from_utf8(path) {
        Err(_) => (Reading::Broken, 0),
        Ok(path) => match fs::open(rt, path) {
            Err(_) => (Reading::Broken, 0),
            Ok(mut file) => read_whole(alloc, &mut file, limit),
        },
    }
}

/// Makes the file of this path from the working folder hold the bytes, and answers whether that was
/// done.
fn write_path<R: Files>(rt: &R, path: &[u8], bytes: &[u8]) -> bool {
    match str::from_utf8(path) {
        Err(_) => false,
        Ok(path) => match fs::create(rt, path) {
            Err(_) => false,
            Ok(mut file) => write_whole(&mut file, bytes),
        },
    }
}

impl<'a, R: Files> Shelf for FolderShelf<'a, R> {
    ghost account = { λ s. record { holding = None; calls = s.calls; faults = s.faults; last_failed = s.last_failed; seen = s.seen } };

    fn take(&mut self, alloc: Global, name: &Word, limit: u64) -> Result<Vec<u8>, TakeFault> {
        self.calls = self.calls.saturating_add(1);
        self.seen = 0;
        let copy = Word::new(alloc, name.bytes())?;
        let (reading, seen) = read_path(self.rt, alloc, name.bytes(), limit);
        self.seen = seen;
        match reading {
            Reading::Whole(bytes) => Ok(bytes),
            Reading::Large => Err(TakeFault::Large(limit + 1)),
            Reading::OutOfMemory => Err(TakeFault::Memory),
            Reading::Broken => {
                self.faults = self.faults.saturating_add(1);
                self.last_failed = Some(Call::Take(copy));
                Err(TakeFault::Failed)
            }
        }
    }

    fn put(&mut self, alloc: Global, name: &Word, bytes: &[u8]) -> Result<(), PutFault> {
        self.calls = self.calls.saturating_add(1);
        let copy = Word::new(alloc, name.bytes())?;
        if write_path(self.rt, name.bytes(), bytes) {
            return Ok(());
        }
        self.faults = self.faults.saturating_add(1);
        self.last_failed = Some(Call::Put(copy));
        Err(PutFault::Failed)
    }
}
