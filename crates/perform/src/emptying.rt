// Kind 15: "kind 15 empties the memory, .. closes all frames". The width that it chooses is none of the buffers' (`Request::width_after`).
ghost use Rattle.definition.specs.Memory.{accepted};
ghost use Rattle.definition.specs.Frame.{State};
ghost use Rattle.definition.specs.Frame as definition;
ghost use Rattle.perform.specs.Performed.{Left};
ghost use Rattle.state.specs.State.{HoldsState};
ghost use Rattle.state.specs.Run.{memory_of, Kept};

use answer::Answer;
use state::RunState;

pub(crate) fn empty(run: &mut RunState) -> Answer
    requires { (s : State) × HoldsState s (memory_of run.old) run.old.frames.now }
    ensures left { Left (accepted, definition.empty) result (memory_of run.new) run.new.frames.now }
    ensures kept { Kept run.old run.new }
{
    run.clear();
    Answer::Accepted
}
