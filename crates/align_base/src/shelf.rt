//! The trait of a shelf: files under names, which calls take and put.
ghost use Rattle.std.specs.Prelude.{◌≡◌, ◌≤◌, length, is_some, IfOk, OnOk, IsErrOf};
ghost use Rattle.align_base.specs.Causes.{count_after};
ghost use Rattle.align_base.specs.Shelf.{Holds, IfLarge, OthersStay, PutCause, ShelfAccount, TakeCause};
ghost use Rattle.align_base.specs.declared.shelf.Call.{Call};
ghost use Rattle.align_base.specs.declared.shelf.PutFault.TheVariants as put;
ghost use Rattle.align_base.specs.declared.shelf.TakeFault.TheVariants as take;

use crate::word::Word;
use outcomes::Memory;
use std::alloc::{AllocError, AllocFailed, Global};
use thiserror::Error;

/// A call of a shelf, with its name.
#[derive(Drop)]
pub enum Call {
    Take(Word),
    Put(Word),
}

/// Why a file was not taken.
#[derive(Clone, Copy, Debug, PartialEq, Eq, Error)]
pub enum TakeFault {
    /// The shelf failed, or does not hold the name.
    #[error("the file could not be read")]
    Failed,
    /// The file has more bytes than the limit. The number is the limit and one.
    #[error("the file has {0} bytes or more, which is more than the limit")]
    Large(u64),
    /// Out of memory.
    #[error("out of memory")]
    Memory,
}

/// Why a file was not put.
#[derive(Clone, Copy, Debug, PartialEq, Eq, Error)]
pub enum PutFault {
    /// The shelf failed.
    #[error("the file could not be written")]
    Failed,
    /// Out of memory.
    #[error("out of memory")]
    Memory,
}

impl From<Memory> for TakeFault {
    ghost from_gives = { λ _ e. e ≡ take.Memory };

    fn from(_memory: Memory) -> TakeFault {
        TakeFault::Memory
    }
}

impl From<AllocError> for TakeFault {
    ghost from_gives = { λ _ e. e ≡ take.Memory };

    fn from(_error: AllocError) -> TakeFault {
        TakeFault::Memory
    }
}

impl From<Memory> for PutFault {
    ghost from_gives = { λ _ e. e ≡ put.Memory };

    fn from(_memory: Memory) -> PutFault {
        PutFault::Memory
    }
}

impl From<AllocError> for PutFault {
    ghost from_gives = { λ _ e. e ≡ put.Memory };

    fn from(_error: AllocError) -> PutFault {
        PutFault::Memory
    }
}

impl<T: Drop> From<AllocFailed<T>> for PutFault {
    ghost from_gives = { λ _ e. e ≡ put.Memory };

    fn from(_failed: AllocFailed<T>) -> PutFault {
        PutFault::Memory
    }
}

/// Files under names.
pub trait Shelf {
    /// What it holds, where it tells, what it was asked, and how that failed. The counts of calls and
    /// of faults never fall, and stand still at 2^64 - 1.
    ghost account: { Self → ShelfAccount };

    /// The file under a name, of at most `limit` bytes. After `Memory` only the count of calls and the
    /// number of bytes read may have changed.
    fn take(&mut self, alloc: Global, name: &Word, limit: u64) -> Result<Vec<u8>, TakeFault>
        ensures counted { (account self.new).calls ≡ count_after (account self.old).calls 1 }
        ensures same { (account self.new).holding ≡ (account self.old).holding }
        ensures held { IfOk result (λ bytes. Holds (account self.old).holding name.now bytes.items) }
        ensures small { IfOk result (λ bytes. length bytes.items ≤ limit) }
        ensures read { IfOk result (λ bytes. (account self.new).seen ≡ length bytes.items) }
        ensures large { IfLarge (account self.old).holding name.now limit (account self.new).seen result }
        ensures cause { TakeCause (Call.Take name.now) (account self.old) (account self.new) result }
        ensures later { (account self.old).faults ≤ (account self.new).faults };

    /// Makes the name hold the bytes, and reads nothing. After `Failed` it may hold anything; after
    /// `Memory` only the count of calls has changed.
    fn put(&mut self, alloc: Global, name: &Word, bytes: &[u8]) -> Result<(), PutFault>
        ensures counted { (account self.new).calls ≡ count_after (account self.old).calls 1 }
        ensures held { OnOk result (Holds (account self.new).holding name.now bytes.now) }
        ensures others { OthersStay name.now (account self.old).holding (account self.new).holding }
        ensures told { is_some (account self.new).holding ≡ is_some (account self.old).holding }
        ensures memory { IsErrOf result PutFault.Memory → (account self.new).holding ≡ (account self.old).holding }
        ensures read { (account self.new).seen ≡ (account self.old).seen }
        ensures cause { PutCause (Call.Put name.now) (account self.old) (account self.new) result }
        ensures later { (account self.old).faults ≤ (account self.new).faults };
}
