// A whole run at hand, and the text of its verdict.
ghost use Rattle.std.specs.Prelude.{◌+◌, ◌≡◌, true, false, leb, length};
ghost use Rattle.definition.specs.Run.{start};
ghost use Rattle.state.specs.Lengths.{have_lengths};
ghost use Rattle.state.specs.Run.{memory_of, Holds, SameBuffers};
ghost use Rattle.judge.specs.Whole.{goes_on, PerformingIn, JudgedAs};

use crate::{Advance, TooLong};
use pointer::width::Width;
use state::RunState;

fn has_room(at: usize, more: usize, room: usize) -> bool
    ensures { result ≡ leb (at + more) room }
{
    // the sum could wrap
    at <= room && more <= room - at
}

// There is a request left, and room for its line.
fn goes_on(p: Advance, bytes: usize, room: usize) -> bool
    ensures { result ≡ goes_on p bytes room }
{
    !p.refused && p.from < bytes && has_room(p.at, 36992, room)
}

// All requests, up to the first that is refused.
fn answer_all(run: &mut RunState, bytes: &[u8], request: &mut [u32], out: &mut [u8]) -> Advance
    requires holds { Holds start run.old }
    requires request_words { length request.old ≡ 4100 }
    ensures performing { PerformingIn bytes.now result out.new run.new }
    ensures over { goes_on result (length bytes.now) (length out.new) ≡ false }
    ensures same { SameBuffers run.old run.new }
{
    let mut p = Advance {
        from: 0,
        at: 0,
        index: 0,
        refused: false,
    };
    // nothing is counted: it ends with a refusal, the bytes or the room
    while goes_on(p, bytes.len(), out.len()) {
        let cut = stream::next_cut(&bytes[p.from..]);
        p = crate::turn::next(run, bytes, request, out, p, cut);
    }
    p
}

// The lines of the memory, behind those of the answers.
fn finish(run: &RunState, bytes: &[u8], out: &mut [u8], p: Advance) -> Result<usize, TooLong>
    requires performing { PerformingIn bytes.now p out.old run.now }
    requires over { goes_on p (length bytes.now) (length out.old) ≡ false }
    ensures { JudgedAs bytes.now out.old result out.new }
{
    if (!p.refused && p.from < bytes.len()) || !has_room(p.at, 0x28000, out.len()) {
        return Err(TooLong);
    }
    Ok(report::allocations::memory_lines(
        out,
        p.at,
        run.allocs,
        run.parents,
        run.protectors,
        run.words,
        run.codes,
    ))
}

// The verdict of a run: what the program prints of it. The buffers and the width may be any.
pub fn judge(
    run: &mut RunState,
    bytes: &[u8],
    request: &mut [u32],
    out: &mut [u8],
) -> Result<usize, TooLong>
    requires lengths { have_lengths (memory_of run.old) run.old.frames.now ≡ true }
    requires request_words { length request.old ≡ 4100 }
    ensures judged { JudgedAs bytes.now out.old result out.new }
    ensures lengths { have_lengths (memory_of run.new) run.new.frames.now ≡ true }
    ensures same { SameBuffers run.old run.new }
{
    run.width = Width::Bits64;
    run.clear();
    let p = answer_all(run, bytes, request, out);
    finish(run, bytes, out, p)
}
