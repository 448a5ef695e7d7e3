// What a memory and a call start from. mem.rs: `TreeBorrowsMemory::new`, `new_call`.
ghost use Rattle.std.specs.Prelude.{◌≡◌, List, ℕ};
ghost use Rattle.answer.specs.declared.Answer as answers;
ghost use Rattle.tables.specs.Encoding.{Buffers};
ghost use Rattle.tables.specs.Held.{buffers};
ghost use Rattle.library.specs.Start.{renewed, opened};

use answer::Answer;
use refusal::Refusal;

// The empty memory, on buffers of any contents. It is one at every width.
#[tactic(auto, unfolding(crate::specs::Start::renewed))]
pub fn new(
    allocs: &mut [u64],
    parents: &mut [u16],
    protectors: &mut [u8],
    words: &mut [u32],
    codes: &mut [u8],
    width: u64,
) -> Answer
    ensures { ◌≡◌ {A = answers.Answer × Buffers}
        (result, buffers allocs.new parents.new protectors.new words.new codes.new)
        (renewed width (buffers allocs.old parents.old protectors.old words.old codes.old)) }
{
    if !pointer::width::is_width(width)
        || !state::have_memory_lengths(allocs, parents, protectors, words, codes)
    {
        return Answer::from(Refusal::NotWellFormed);
    }
    state::clear_memory(allocs, parents, protectors, words, codes);
    Answer::Accepted
}

// A frame without entries, on 64 places of any contents: each is an entry's allocation and node.
#[tactic(auto, unfolding(crate::specs::Start::opened))]
pub fn new_call(places: &mut [[u32; 2]]) -> Answer
    ensures { ◌≡◌ {A = answers.Answer × List (List ℕ)} (result, places.new) (opened places.old) }
{
    if places.len() != 64 {
        return Answer::from(Refusal::NotWellFormed);
    }
    places.fill([0, 0]);
    Answer::Accepted
}
