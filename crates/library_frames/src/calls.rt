// Kind 6 on a lent memory and a frame's list by value, with nothing asked of the caller. mem.rs: `end_call`.
// specs/EndCall.antt is the promise of `end_call_list`.
ghost use Rattle.std.specs.Prelude.{◌≡◌};
ghost use Rattle.frames.specs.List.{first_of};
ghost use Rattle.tables.specs.Held.{buffers};
ghost use Rattle.library_frames.specs.EndCall.{is_lent_with_area, EndedLent};

use answer::Answer;
use frames::{Entries, Entry};
use refusal::Refusal;

// Not refused with 1: the entries' list, the working area and the buffers have their lengths, and the buffers hold a memory.
fn is_lent_with_area(
    len: usize,
    count: usize,
    area: &[u8],
    allocs: &[u64],
    parents: &[u16],
    protectors: &[u8],
    words: &[u32],
    codes: &[u8],
    width: u64,
) -> bool
    ensures { result ≡ is_lent_with_area width len count area.now
        (buffers allocs.now parents.now protectors.now words.now codes.now) }
{
    crate::retags::is_lent(len, count, allocs, parents, protectors, words, codes, width)
        && area.len() == 32768
}

// The entries are the first `count` of a list of `len` places, of which the first 64 are given. For whatever is lent: 1, and nothing changes; or
// the end call of the memory that the buffers hold, and the working area is zero.
pub fn end_call_list(
    len: usize,
    list: [Entry; 64],
    count: usize,
    allocs: &[u64],
    parents: &[u16],
    protectors: &mut [u8],
    words: &[u32],
    codes: &mut [u8],
    width: u64,
    area: &mut [u8],
) -> Answer
    ensures { EndedLent width len count (first_of count list)
        (buffers allocs.now parents.now protectors.old words.now codes.old) area.old
        result (buffers allocs.now parents.now protectors.new words.now codes.new) area.new }
{
    if !is_lent_with_area(
        len, count, area, allocs, parents, protectors, words, codes, width,
    ) {
        return Answer::from(Refusal::NotWellFormed);
    }
    let list = Entries { list, count };
    end_call::end_call_held(allocs, parents, protectors, codes, area, list)
}
