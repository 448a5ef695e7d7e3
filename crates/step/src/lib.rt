#![tactic(auto)]

// One request: 2, and then its kind. The buffers are not tested again: they hold a run's state before, and the next one afterwards.
ghost use Rattle.std.specs.Prelude.{◌≡◌, List, ℕ};
ghost use Rattle.definition.specs.Frame.{State};
ghost use Rattle.definition.specs.Run as definition;
ghost use Rattle.pointer.specs.Width.{width_of};
ghost use Rattle.frames.specs.Buffer.{HoldsFrames};
ghost use Rattle.state.specs.State.{HoldsState};
ghost use Rattle.state.specs.Run.{memory_of, Holds, SameBuffers, Kept};
ghost use Rattle.step.specs.Steps.{Decoded, Stepped, Turned};

use answer::Answer;
use refusal::Refusal;
use request::Request;
use state::RunState;

// The request of these fields, with the words that follow them, falls under 2.
fn is_refused(run: &RunState, q: Request, following: &[u32]) -> bool
    requires { (s : State) × HoldsFrames s.frames run.now.frames.now }
    ensures { (s : State) (ws : List ℕ) → HoldsFrames s.frames run.now.frames.now → Decoded q following.now ws → result ≡ definition.is_refused (width_of run.now.width) s ws }
{
    let opened = frames::is_open(run.frames, q.frame_used());
    request::is_miscounted(q, following.len())
        | request::is_malformed(q, following, opened)
        | request::is_too_big(q, following, run.width)
}

// A request by its fields, which are read once, and the words that follow them: its answer, and the buffers hold the state that it leaves.
fn step_decoded(run: &mut RunState, q: Request, following: &[u32]) -> Answer
    requires holds { (s : State) × HoldsState s (memory_of run.old) run.old.frames.now }
    requires decoded { (ws : List ℕ) × Decoded q following.now ws }
    ensures stepped { (s : State) (ws : List ℕ) → HoldsState s (memory_of run.old) run.old.frames.now
        → Decoded q following.now ws
        → Stepped (width_of run.old.width) s ws result (memory_of run.new) run.new.frames.now }
    ensures kept { Kept run.old run.new }
{
    if is_refused(run, q, following) {
        return Answer::from(Refusal::Malformed);
    }
    perform::perform(run, q, following)
}

// The same request in a run, which then has the width that it leaves.
pub fn turn_decoded(run: &mut RunState, q: Request, following: &[u32]) -> Answer
    requires holds { (r : definition.RunState) × Holds r run.old }
    requires decoded { (ws : List ℕ) × Decoded q following.now ws }
    ensures turned { (r : definition.RunState) (ws : List ℕ) → Holds r run.old
        → Decoded q following.now ws
        → Turned r ws result run.new }
    ensures same { SameBuffers run.old run.new }
{
    let answer = step_decoded(run, q, following);
    run.width = q.width_after(answer.refusal() != 0, run.width);
    answer
}

// A request by its words.
pub fn turn(run: &mut RunState, request: &[u32]) -> Answer
    requires { (r : definition.RunState) × Holds r run.old }
    ensures turned { (r : definition.RunState) → Holds r run.old → Turned r request.now result run.new }
    ensures same { SameBuffers run.old run.new }
{
    // too few words even for the fields
    if request.len() < 4 {
        return Answer::from(Refusal::Malformed);
    }
    turn_decoded(run, Request::of(request), request::following(request))
}
