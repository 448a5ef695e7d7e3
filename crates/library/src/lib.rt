#![tactic(auto)]

// The library's entries: the requests that need no frame, on five lent buffers. None has a `requires`. Each tests what is lent (1), then the
// fields (2), and then calls the request on the memory that the buffers hold. specs/Entry.antt says what each comes to. The buffers come one by one,
// as C lends them, and as `&mut` those that a request may change: of a struct of them each would have to say which ones stay. The two tests stand in each
// entry: a function of both would be lent the five buffers and told the second's outcome, and its caller would still ask what it answered.
pub mod allocate;
pub mod deallocate;
pub mod dereferenceable;
pub mod fields;
pub mod leak_check;
pub mod load;
pub mod start;
pub mod store;
