#![tactic(auto)]

// A run: a list of requests from the empty memory, each given by its words, on the buffers that hold a memory and its frames.
ghost use Rattle.std.specs.Prelude.{◌≡◌, ◌-◌, take, drop};

use pointer::width::Width;
use transcript::Written;

pub mod list;

// What a list comes to that is not refused: its answers, as far as the lent buffer has room, and the width that it leaves.
#[derive(Clone, Copy)]
pub struct Answered {
    pub written: Written,
    pub width: Width,
}

// The words from one place up to another, as far as there are any.
pub(crate) fn part<'a>(words: &'a [u32], from: usize, end: usize) -> &'a [u32]
    ensures { result.now ≡ take (end - from) (drop from words.now) }
{
    let stop = end.min(words.len());
    &words[from.min(stop)..stop]
}
