//! Why a linking ends without a graph.

use faults::MemoryOr;
use link_spec::{LinkFault, LinkWhy};

/// Why a linking ends without a graph: an item is refused, or memory ran out.
pub type LinkError = MemoryOr<LinkFault>;

/// Why an item is not linked: it is refused, or memory ran out.
pub type ItemError = MemoryOr<LinkWhy>;
