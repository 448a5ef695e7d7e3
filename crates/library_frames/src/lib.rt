#![tactic(auto)]

// A retag and an end call on a lent memory, beside the entries of `library`. None has a `requires`. Each tests what is lent (1), then the
// fields (2), and then calls the request on the memory that the buffers hold. specs/Retag.antt and specs/EndCall.antt say what each comes to.
// Of the lent frame a retag takes the number of places, and an end call the list by value: the entries that are lent a slice of entry structs
// are the exports of `tree_borrows`, which read it and store into it, and do nothing else.
// The buffers come one by one, as in `library`.
pub mod calls;
pub mod retags;
