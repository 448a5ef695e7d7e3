// Kind 9: it changes nothing.
ghost use Rattle.std.specs.Prelude.{false};
ghost use Rattle.definition.specs.Memory.{leak_check};
ghost use Rattle.answer.specs.Answer.Gives.{Nothing};
ghost use Rattle.tables.specs.Held.{buffers};
ghost use Rattle.library.specs.Entry.{Served};

use answer::Answer;
use refusal::Refusal;

// Check if there are any memory leaks; the answer names the lowest.
pub fn leak_check(
    allocs: &[u64],
    parents: &[u16],
    protectors: &[u8],
    words: &[u32],
    codes: &[u8],
    width: u64,
) -> Answer
    ensures { Served width Nothing false leak_check
        (buffers allocs.now parents.now protectors.now words.now codes.now)
        result
        (buffers allocs.now parents.now protectors.now words.now codes.now) }
{
    if !wellformed::at_width::well_formed_at(allocs, parents, protectors, words, codes, width) {
        return Answer::from(Refusal::NotWellFormed);
    }
    bounds::leak_check(allocs)
}
