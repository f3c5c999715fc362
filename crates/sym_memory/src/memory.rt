//! The memory of a side along a path.
ghost use Rattle.std.specs.Prelude.{◌≡◌, ℕ, ◌+◌, ◌<◌, ◌^◌, ◌≤◌, [], ◌++◌, IfOk, IsErrOf, OnOk, OnErr, length, reverse, slice_index_or};
ghost use Rattle.node_values.specs.Sheets.{Extends, IsSheet, value_at};
ghost use Rattle.node_values.specs.Values.{Environment};
ghost use Rattle.address_nodes.specs.Multiples.{IsAddress, IsOfWidth};
ghost use Rattle.sym_memory.specs.Writes.{AreWritten, PathMemory, written_bytes};
ghost use Rattle.sym_memory.specs.Bytes.{HoldFor, address_of_byte, memory_byte};
ghost use Rattle.sym_memory.specs.Reads.{byte_read, bytes_read, probed};

use crate::byte::{byte_address, read_byte};
use crate::written::{Place, Written};
use duty_claims::Fixed;
use insn_ops::Side;
use node_values::NodeId;
use outcomes::Memory;
use std::alloc::Global;
use std::marker::Model;
use terms::{Sheet, SheetFull};

/// A side's memory along a path.
///
/// Contracts see it as the side and the bytes that were written, oldest first.
#[derive(Drop)]
pub struct SymMem {
    side: Side,
    written: Vec<Written>,
    alloc: Global,
}

impl Model for SymMem {
    ghost use Rattle.sym_memory.specs.Writes.{PathMemory};

    ghost Value = { PathMemory };

    ghost view = { λ m. record { side = m.side; written = m.written.items } };
}

impl SymMem {
    /// The memory of a side before any write. It takes no memory.
    pub fn new(alloc: Global, side: Side) -> SymMem
        ensures { result ≡ record { side = side; written = [] } }
    {
        SymMem {
            side,
            written: Vec::new(alloc),
            alloc,
        }
    }

    /// Builds the bytes that an access reads, lowest first.
    pub fn read(
        &mut self,
        sheet: &mut Sheet,
        access: u32,
        at: NodeId,
        bytes: u32,
        fixed: &[Fixed],
    ) -> Result<Vec<NodeId>, SheetFull>
        requires address { IsAddress sheet.old at }
        requires written { AreWritten sheet.old self.old.written }
        ensures made { IfOk result (λ read. bytes_read self.old fixed.now access at bytes sheet.old
            ≡ record { nodes = sheet.new; bytes = read.items }) }
        ensures count { IfOk result (λ read. length read.items ≡ bytes) }
        ensures widths { IfOk result (λ read. (b : ℕ) → b < bytes → IsOfWidth sheet.new 8 (slice_index_or read.items b at)) }
        ensures value { IfOk result (λ read. (e : Environment)
            → HoldFor (value_at e sheet.old) fixed.now access self.old (value_at e sheet.old at.0) bytes
            → (b : ℕ) → b < bytes → value_at e sheet.new (slice_index_or read.items b at).0
            ≡ memory_byte e sheet.old self.old (address_of_byte (value_at e sheet.old at.0) b)) }
        ensures extends { Extends sheet.old sheet.new }
        ensures full { IsErrOf result SheetFull.Full
            → 65536 < length (bytes_read self.old fixed.now access at bytes sheet.old).nodes }
        ensures same { self.new ≡ self.old }
    {
        let alloc = self.alloc;
        sheet.in_order();
        let read = read_bytes(alloc, self, sheet, access, at, bytes, fixed)?;
        Ok(read)
    }

    /// Adds the bytes that an access writes, lowest first.
    pub fn write(&mut self, access: u32, at: NodeId, values: &[NodeId]) -> Result<(), Memory>
        requires { length values.now < 2 ^ 32 }
        ensures written { OnOk result (self.new
            ≡ record { side = self.old.side; written = self.old.written ++ written_bytes access at 0 values.now }) }
        ensures err { OnErr result (self.new ≡ self.old) }
    {
        let bytes = bytes_of(self.alloc, access, at, values)?;
        self.written.extend_from_slice(bytes.as_slice())?;
        Ok(())
    }

    /// Builds the byte at a place of an access that reads.
    fn byte(&self, sheet: &mut Sheet, fixed: &[Fixed], place: Place) -> Result<NodeId, SheetFull>
        requires address { IsAddress sheet.old place.address }
        requires written { AreWritten sheet.old self.now.written }
        ensures made { IfOk result (λ id. byte_read self.now.side fixed.now place (reverse self.now.written) sheet.old
            ≡ record { nodes = sheet.new; id = id }) }
        ensures extends { Extends sheet.old sheet.new }
        ensures full { IsErrOf result SheetFull.Full
            → 65536 < length (byte_read self.now.side fixed.now place (reverse self.now.written) sheet.old).nodes }
    {
        let written = self.written.as_slice();
        read_byte(self.alloc, sheet, self.side, fixed, place, written)
    }

    /// Builds the byte at an address, with no access of its own.
    pub fn probe(&self, sheet: &mut Sheet, at: NodeId) -> Result<NodeId, SheetFull>
        requires address { IsAddress sheet.old at }
        requires written { AreWritten sheet.old self.now.written }
        ensures made { IfOk result (λ id. probed self.now at sheet.old ≡ record { nodes = sheet.new; id = id }) }
        ensures width { IfOk result (IsOfWidth sheet.new 8) }
        ensures value { IfOk result (λ id. (e : Environment)
            → value_at e sheet.new id.0 ≡ memory_byte e sheet.old self.now (value_at e sheet.old at.0)) }
        ensures extends { Extends sheet.old sheet.new }
        ensures full { IsErrOf result SheetFull.Full → 65536 < length (probed self.now at sheet.old).nodes }
    {
        let place = Place {
            access: 0,
            byte: 0,
            address: at,
        };
        sheet.in_order();
        let id = self.byte(sheet, &[], place)?;
        Ok(id)
    }
}

/// Builds the bytes that an access reads, lowest first.
fn read_bytes(
    alloc: Global,
    memory: &SymMem,
    sheet: &mut Sheet,
    access: u32,
    at: NodeId,
    bytes: u32,
    fixed: &[Fixed],
) -> Result<Vec<NodeId>, SheetFull>
    requires address { IsAddress sheet.old at }
    requires written { AreWritten sheet.old memory.now.written }
    ensures made { IfOk result (λ read. bytes_read memory.now fixed.now access at bytes sheet.old
        ≡ record { nodes = sheet.new; bytes = read.items }) }
    ensures extends { Extends sheet.old sheet.new }
    ensures full { IsErrOf result SheetFull.Full
        → 65536 < length (bytes_read memory.now fixed.now access at bytes sheet.old).nodes }
{
    sheet.in_order();
    let mut read = Vec::new(alloc);
    for byte in 0..bytes {
        let address = byte_address(sheet, at, byte)?;
        sheet.in_order();
        let place = Place {
            access,
            byte,
            address,
        };
        let id = memory.byte(sheet, fixed, place)?;
        sheet.in_order();
        read.push(id)?;
    }
    Ok(read)
}

/// The bytes that an access writes, lowest first.
fn bytes_of(
    alloc: Global,
    access: u32,
    at: NodeId,
    values: &[NodeId],
) -> Result<Vec<Written>, Memory>
    requires { length values.now < 2 ^ 32 }
    ensures { IfOk result (λ bytes. bytes.items ≡ written_bytes access at 0 values.now) }
{
    let mut bytes = Vec::new(alloc);
    for i in 0..values.len() {
        let byte = i as u32;
        let value = values[i];
        bytes.push(Written {
            access,
            at,
            byte,
            value,
        })?;
    }
    Ok(bytes)
}
