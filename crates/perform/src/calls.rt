// Kinds 5 and 6: a frame is opened, and closed with the release of its protectors.
ghost use Rattle.std.specs.Prelude.{◌<◌, ◌≡◌, false};
ghost use Rattle.definition.specs.Frame.{State, frame_at, is_open, new_call, end_call};
ghost use Rattle.frames.specs.Buffer.{HoldsFrames};
ghost use Rattle.perform.specs.Performed.{LeftTrees, LeftFrames};
ghost use Rattle.state.specs.State.{HoldsTreesAndFrames};

use answer::Answer;

pub(crate) fn new_call(frames: &mut [u32], f: usize) -> Answer
    requires holds_frames { (s : State) × (HoldsFrames s.frames frames.old × (is_open (frame_at s f) ≡ false)) }
    requires f_bound { f < 32 }
    ensures { (s : State) → HoldsFrames s.frames frames.old → LeftFrames (new_call f s) result frames.new }
{
    frames::open_frame(frames, f);
    Answer::Accepted
}

pub(crate) fn end_call(
    allocs: &[u64],
    parents: &[u16],
    protectors: &mut [u8],
    codes: &mut [u8],
    frames: &mut [u32],
    f: usize,
) -> Answer
    requires holds_trees_and_frames { (s : State) × HoldsTreesAndFrames s allocs.now parents.now protectors.old codes.old frames.old }
    requires f_bound { f < 32 }
    ensures { (s : State) → HoldsTreesAndFrames s allocs.now parents.now protectors.old codes.old frames.old
        → LeftTrees (end_call f s) result allocs.now parents.now protectors.new codes.new frames.new }
{
    let numbers = frames::frame_numbers(frames, f);
    let answer = end_call::end_call_in_run(allocs, parents, protectors, codes, numbers);
    if answer.refusal() == 0 {
        frames::close_frame(frames, f);
    }
    answer
}
