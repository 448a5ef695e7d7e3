#![tactic(auto)]

// A run by its bytes: its requests performed one by one, and the text of its verdict. specs/Turn.antt and specs/Whole.antt say what is promised.
pub mod turn;
pub mod whole;

// How far a run was performed: the next request starts at `from`, its line goes to `at`, it has the number `index`; and whether the last was refused.
// The places hold of a refused request too, so it is no Result.
#[derive(Clone, Copy)]
pub struct Advance {
    pub from: usize,
    pub at: usize,
    pub index: u64,
    pub refused: bool,
}

// The buffer has no room for the text of a run.
#[derive(Clone, Copy)]
pub struct TooLong;
