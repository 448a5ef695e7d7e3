#![tactic(auto)]

// The requests that need no frame, on buffers that hold a memory. mem.rs: `BasicMemory`, `TreeBorrowsMemory`. Each function is the core of one: it
// requires that the buffers hold a well-formed memory, and says of every memory that they hold what the answer is, and what they hold afterwards.
// Each is lent just the buffers that it reads, and as `&mut` those that it may change: of a struct of them it would have to say which ones stay.
pub mod access;
pub mod allocate;
pub mod deallocate;
