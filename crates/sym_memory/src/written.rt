//! Written bytes.
use node_values::NodeId;

/// A byte that an access wrote: the access and its address, the byte's number in it, counted from the
/// lowest address, and its value.
#[derive(Clone, Copy, Debug, PartialEq, Eq)]
pub struct Written {
    pub access: u32,
    pub at: NodeId,
    pub byte: u32,
    pub value: NodeId,
}

/// Where a byte is read: the access, the byte's number in it, and its address.
#[derive(Clone, Copy, Debug, PartialEq, Eq)]
pub struct Place {
    pub access: u32,
    pub byte: u32,
    pub address: NodeId,
}
