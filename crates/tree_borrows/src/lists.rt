// A list of requests from the empty memory, on six lent buffers.
ghost use Rattle.tables.specs.Held.{buffers};
ghost use Rattle.run.specs.Lists.{requests_in, lent};
ghost use Rattle.tree_borrows.specs.Numbers.{ListReplied};

use crate::numbers::ListReply;
use pointer::width::Width;
use state::RunState;

// The requests' words, where each ends, and a buffer for the answers: five words for each, and the loaded words.
#[unsafe(no_mangle)]
pub extern "C" fn tree_borrows_run_list(
    allocs: &mut [u64],
    parents: &mut [u16],
    protectors: &mut [u8],
    words: &mut [u32],
    codes: &mut [u8],
    frames: &mut [u32],
    requests: &[u32],
    ends: &[u32],
    answers: &mut [u32],
) -> ListReply
    ensures { ListReplied (requests_in requests.now ends.now)
        (lent (buffers allocs.old parents.old protectors.old words.old codes.old) frames.old answers.old)
        result (lent (buffers allocs.new parents.new protectors.new words.new codes.new) frames.new answers.new) }
{
    let mut run = RunState {
        allocs,
        parents,
        protectors,
        words,
        codes,
        frames,
        width: Width::Bits64,
    };
    ListReply::from(run::list::run_list(&mut run, requests, ends, answers))
}
