#![tactic(auto)]

// The program's output: the two public functions write a text into a lent buffer, from a place on, and return the place behind it.
// Output.antt of the definition has the texts.
pub mod allocations;
pub mod answers;
mod decimal;
mod nodes;
mod page;
mod word;
