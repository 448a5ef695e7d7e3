#![tactic(auto)]

// One allocation's tree, lent as parts of tables: each node's parent, its mark, and a row of codes for its bytes. The visits that requests make of it:
// `visit` makes them; here they are said of the nodes that the tables hold.
mod accesses;
mod deallocation;
mod protector;
mod reads;

pub use accesses::access;
pub use deallocation::deallocate;
pub use protector::{release, release_dead};
pub use reads::make_reads;
