//! Equations of nodes.

use node_values::NodeId;

/// Two nodes of one width that are equal.
#[derive(Clone, Copy, Debug, PartialEq, Eq)]
pub struct Equation {
    pub left: NodeId,
    pub right: NodeId,
}
