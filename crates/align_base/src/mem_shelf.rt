//! A shelf in memory whose calls fail by their numbers.
ghost use Rattle.std.specs.Prelude.{◌≡◌, ◌≤◌, length, Option, Some, None, option_map, IfOk, OnOk, IsErrOf};
ghost use Rattle.align_base.specs.Causes.{count_after};
ghost use Rattle.align_base.specs.Files.{first_held};
ghost use Rattle.align_base.specs.Shelf.{Holds, IfLarge, OthersStay, PutCause, TakeCause, new_account};
ghost use Rattle.align_base.specs.declared.shelf.Call.{Call};

use crate::files::{copied_within, first_held, put_first};
use crate::shelf::{Call, PutFault, Shelf, TakeFault};
use crate::word::Word;
use std::alloc::Global;

/// Files in memory, of which chosen calls fail: those whose numbers are listed, `take` and `put`
/// counted together from 1. A name that is not held fails too. It tells what it holds.
#[derive(Drop)]
pub struct MemShelf {
    files: Vec<(Word, Vec<u8>)>,
    failing: Vec<u64>,
    calls: u64,
    faults: u64,
    seen: u64,
    last_failed: Option<Call>,
}

impl MemShelf {
    ghost use Rattle.align_base.specs.MemKinds.{shelf_fails, shelf_failing, shelf_files};

    /// A shelf of these files, of which the calls with these numbers fail. Of equal names the first
    /// file holds.
    pub fn new(files: Vec<(Word, Vec<u8>)>, failing: Vec<u64>) -> MemShelf
        ensures files { shelf_files result ≡ files.items }
        ensures failing { shelf_failing result ≡ failing.items }

        // What it is as a shelf.
        ensures account { ⟦<MemShelf as Shelf>⟧.account result ≡ new_account (Some (first_held files.items)) }
    {
        MemShelf {
            files,
            failing,
            calls: 0,
            faults: 0,
            seen: 0,
            last_failed: None,
        }
    }

    /// What the name holds.
    pub fn held(&self, name: &Word) -> Option<&[u8]>
        ensures { option_map (λ bytes. bytes.now) result ≡ first_held (shelf_files self.now) name.now }
    {
        first_held(self.files.as_slice(), name.bytes())
    }

    /// Counts a call, and answers whether it fails by its number.
    fn next_fails(&mut self) -> bool
        ensures counted { self.new ≡ record self.old { calls = count_after self.old.calls 1 } }
        ensures fails { result ≡ shelf_fails self.old }
    {
        self.calls = self.calls.saturating_add(1);
        self.failing.contains(&self.calls)
    }

    /// Counts a failure of this call.
    fn fail(&mut self, call: Call)
        ensures later { self.old.faults ≤ self.new.faults }
        ensures failed { self.new ≡ record self.old { faults = count_after self.old.faults 1; last_failed = Some call } }
    {
        self.faults = self.faults.saturating_add(1);
        self.last_failed = Some(call);
    }
}

impl Shelf for MemShelf {
    ghost use Rattle.align_base.specs.MemKinds.{TakeFails, PutFails, shelf_account, shelf_failing, shelf_files};

    ghost account = { λ s. shelf_account s };

    fn take(&mut self, alloc: Global, name: &Word, limit: u64) -> Result<Vec<u8>, TakeFault>
        ensures fails { TakeFails self.old name.now result }
        ensures failing { shelf_failing self.new ≡ shelf_failing self.old }
        ensures unread { IsErrOf result TakeFault.Failed → self.new.seen ≡ 0 }

        // What every shelf ensures.
        ensures counted { self.new.calls ≡ count_after self.old.calls 1 }
        ensures same { shelf_files self.new ≡ shelf_files self.old }
        ensures held { IfOk result (λ bytes. Holds (Some (first_held (shelf_files self.old))) name.now bytes.items) }
        ensures small { IfOk result (λ bytes. length bytes.items ≤ limit) }
        ensures read { IfOk result (λ bytes. self.new.seen ≡ length bytes.items) }
        ensures large { IfLarge (Some (first_held (shelf_files self.old))) name.now limit self.new.seen result }
        ensures cause { TakeCause (Call.Take name.now) (shelf_account self.old) (shelf_account self.new) result }
        ensures later { self.old.faults ≤ self.new.faults }
    {
        self.seen = 0;
        let fails = self.next_fails();
        let copy = Word::new(alloc, name.bytes())?;
        if fails {
            self.fail(Call::Take(copy));
            return Err(TakeFault::Failed);
        }
        match first_held(self.files.as_slice(), name.bytes()) {
            None => {
                self.fail(Call::Take(copy));
                Err(TakeFault::Failed)
            }
            Some(bytes) => {
                self.seen = bytes.len() as u64;
                copied_within(alloc, bytes, limit)
            }
        }
    }

    fn put(&mut self, alloc: Global, name: &Word, bytes: &[u8]) -> Result<(), PutFault>
        ensures fails { PutFails self.old result }
        ensures failing { shelf_failing self.new ≡ shelf_failing self.old }
        ensures failed { IsErrOf result PutFault.Failed → shelf_files self.new ≡ shelf_files self.old }

        // What every shelf ensures.
        ensures counted { self.new.calls ≡ count_after self.old.calls 1 }
        ensures held { OnOk result (Holds (Some (first_held (shelf_files self.new))) name.now bytes.now) }
        ensures others { OthersStay name.now (Some (first_held (shelf_files self.old))) (Some (first_held (shelf_files self.new))) }
        ensures memory { IsErrOf result PutFault.Memory → shelf_files self.new ≡ shelf_files self.old }
        ensures read { self.new.seen ≡ self.old.seen }
        ensures cause { PutCause (Call.Put name.now) (shelf_account self.old) (shelf_account self.new) result }
        ensures later { self.old.faults ≤ self.new.faults }
    {
        let fails = self.next_fails();
        let copy = Word::new(alloc, name.bytes())?;
        if fails {
            self.fail(Call::Put(copy));
            return Err(PutFault::Failed);
        }
        put_first(&mut self.files, alloc, copy, bytes)
    }
}
