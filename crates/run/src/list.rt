// A list of requests from the empty memory. It goes on after a refusal. specs/Lists.antt says what it comes to, with demand 3.
ghost use Rattle.std.specs.Prelude.{◌≡◌, IfOk, OnErr};
ghost use Rattle.definition.specs.Run as definition;
ghost use Rattle.state.specs.Run.{memory_of, Holds, SameBuffers};
ghost use Rattle.run.specs.declared.Answered as answered;
ghost use Rattle.run.specs.Lists.{requests_in, Lent, lent, ran, ListRan};
ghost use Rattle.run.specs.Turns.{Turned};

use crate::{Answered, part};
use pointer::width::Width;
use refusal::Refusal;
use state::RunState;
use transcript::Written;

// One request; its answer is written behind the others.
fn turn(run: &mut RunState, request: &[u32], answers: &mut [u32], written: Written) -> Written
    requires { (r : definition.RunState) × Holds r run.old }
    ensures turned { (r : definition.RunState) → Holds r run.old
        → Turned r request.now written answers.old result run.new answers.new }
    ensures same { SameBuffers run.old run.new }
{
    let answer = step::turn(run, request);
    let words = &mut *run.words;
    transcript::put_answer(answers, written, answer, words)
}

// The whole list, from the empty state.
fn run_cleared(run: &mut RunState, requests: &[u32], ends: &[u32], answers: &mut [u32]) -> Answered
    requires { Holds definition.start run.old }
    ensures ran { ◌≡◌ {A = answered.Answered × Lent}
        (result, lent (memory_of run.new) run.new.frames.now answers.new)
        (ran (requests_in requests.now ends.now) answers.old) }
    ensures width { result.width ≡ run.new.width }
    ensures same { SameBuffers run.old run.new }
{
    let mut written = transcript::nothing_written();
    let mut from = 0;
    for &end in ends {
        let end = end as usize;
        written = turn(run, part(requests, from, end), answers, written);
        from = end;
    }
    Answered {
        written,
        width: run.width,
    }
}

// The requests' words, and where each ends. Memory and frames are emptied first; each answer is written to the lent buffer.
pub fn run_list(
    run: &mut RunState,
    requests: &[u32],
    ends: &[u32],
    answers: &mut [u32],
) -> Result<Answered, Refusal>
    ensures ran { ListRan (requests_in requests.now ends.now)
        (lent (memory_of run.old) run.old.frames.now answers.old)
        result (lent (memory_of run.new) run.new.frames.now answers.new) }
    ensures width { IfOk result (λ answered. answered.width ≡ run.new.width) }
    ensures refused { OnErr result (run.new.width ≡ run.old.width) }
    ensures same { SameBuffers run.old run.new }
{
    if !run.have_lengths() {
        return Err(Refusal::NotWellFormed);
    }
    run.clear();
    run.width = Width::Bits64;
    Ok(run_cleared(run, requests, ends, answers))
}
