#![tactic(auto)]

// A request that is well formed, on the buffers that hold a run's state: its fields go to the core of its kind.
// specs/Performed.antt says what is asked and what is left; what comes out is the definition's `perform`.
// The parts are lent buffers one by one, as the cores that they call.
ghost use Rattle.definition.specs.Frame.{State};
ghost use Rattle.pointer.specs.Width.{width_of};
ghost use Rattle.perform.specs.Performed.{Formed, outcome_of, Left};
ghost use Rattle.state.specs.State.{HoldsState};
ghost use Rattle.state.specs.Run.{memory_of, Kept};

use answer::Answer;
use request::{Kind, Request};
use state::RunState;

mod calls;
mod emptying;
mod in_memory;
mod retags;

// Every kind. Those that need no frame go to `in_memory`. A part is lent the buffers that its kind reads, and as `&mut` those that it may change.
pub fn perform(run: &mut RunState, q: Request, following: &[u32]) -> Answer
    requires { (s : State) × (HoldsState s (memory_of run.old) run.old.frames.now × Formed s q following.now) }
    ensures left { (s : State) → HoldsState s (memory_of run.old) run.old.frames.now
        → Formed s q following.now
        → Left (outcome_of (width_of run.old.width) s q following.now) result (memory_of run.new) run.new.frames.now }
    ensures kept { Kept run.old run.new }
{
    let width = run.width;
    let f = q.frame_used();
    match q.kind {
        Kind::Retag => retags::retag(
            run.allocs,
            run.parents,
            run.protectors,
            run.codes,
            run.frames,
            q,
            following,
        ),
        Kind::NewCall => calls::new_call(run.frames, f),
        Kind::EndCall => {
            let allocs = &mut *run.allocs;
            let parents = &mut *run.parents;
            calls::end_call(allocs, parents, run.protectors, run.codes, run.frames, f)
        }
        Kind::Empty => emptying::empty(run),
        _ => {
            let parents = &mut *run.parents;
            let protectors = &mut *run.protectors;
            in_memory::in_memory(
                run.allocs, parents, protectors, run.words, run.codes, width, q, following,
            )
        }
    }
}
