// One request of a run: performed, and the line of its answer written.
ghost use Rattle.std.specs.Prelude.{◌+◌, ◌-◌, ◌*◌, ◌≤◌, ◌<◌, ◌^◌, min, ◌≡◌, length, drop};
ghost use Rattle.definition.specs.Run as definition;
ghost use Rattle.definition.specs.Run.{words_of};
ghost use Rattle.answer.specs.Answer.{answer_of};
ghost use Rattle.state.specs.Run.{Holds, SameBuffers};
ghost use Rattle.stream.specs.Stream.{HeadOf, CutOf};
ghost use Rattle.step.specs.Steps as step;
ghost use Rattle.judge.specs.Turn.{line_room, LineWritten, Turned, Taken};

use crate::Advance;
use answer::Answer;
use refusal::Refusal;
use request::Request;
use state::RunState;
use stream::Cut;

// Where the next line goes, and whether the request was refused, which has a line as well.
#[derive(Clone, Copy)]
struct Line {
    at: usize,
    refused: bool,
}

// The line of an answer, with the words that it loaded.
fn write_answer(out: &mut [u8], at: usize, index: u64, answer: Answer, run: &RunState) -> Line
    requires { (at + line_room ≤ length out.old) × (length run.now.words.now ≤ 4096) }
    ensures { LineWritten index (answer_of answer run.now.words.now) out.old at out.new result.at result.refused }
{
    let loaded = answer::loaded_words(answer, run.words);
    Line {
        at: report::answers::answer_line(out, at, index, answer, loaded),
        refused: answer.refusal() != 0,
    }
}

// The request that these bytes make, of which q are the fields, if there are bytes for them. `request` is room for the words behind them.
fn step_bytes(run: &mut RunState, bytes: &[u8], q: Request, request: &mut [u32]) -> Answer
    requires holds { (r : definition.RunState) × Holds r run.old }
    requires room { length bytes.now < 4 * length request.old + 4 }
    requires head { 16 ≤ length bytes.now → HeadOf bytes.now q }
    ensures turned { (r : definition.RunState) → Holds r run.old → step.Turned r (words_of bytes.now) result run.new }
    ensures same { SameBuffers run.old run.new }
{
    if bytes.len() < 16 {
        return Answer::from(Refusal::Malformed);
    }
    let n = stream::read_words(&bytes[16..], request);
    step::turn_decoded(run, q, &request[..n])
}

// The same, and its line.
fn answer_bytes(
    run: &mut RunState,
    bytes: &[u8],
    q: Request,
    request: &mut [u32],
    out: &mut [u8],
    at: usize,
    index: u64,
) -> Line
    requires holds { (r : definition.RunState) × Holds r run.old }
    requires line_room { at + line_room ≤ length out.old }
    requires room { length bytes.now < 4 * length request.old + 4 }
    requires head { 16 ≤ length bytes.now → HeadOf bytes.now q }
    ensures turned { (r : definition.RunState) → Holds r run.old
        → Turned r (words_of bytes.now) index out.old at out.new result.at result.refused run.new }
    ensures same { SameBuffers run.old run.new }
{
    let answer = step_bytes(run, bytes, q, request);
    write_answer(out, at, index, answer, run)
}

// The next request of the bytes at hand, which is cut from them. Where they end inside it, it is cut short.
pub fn next(
    run: &mut RunState,
    bytes: &[u8],
    request: &mut [u32],
    out: &mut [u8],
    p: Advance,
    cut: Cut,
) -> Advance
    requires holds { (r : definition.RunState) × Holds r run.old }
    requires line_room { p.at + line_room ≤ length out.old }
    requires request_words { length request.old ≡ 4100 }
    requires inside { p.from < length bytes.now }
    requires index { p.index + 1 < 2 ^ 64 }
    requires cut_of { CutOf (drop p.from bytes.now) cut }
    ensures taken { (r : definition.RunState) → Holds r run.old → Taken r bytes.now p out.old result out.new run.new }
    ensures same { SameBuffers run.old run.new }
{
    // behind the request, or with the bytes
    let end = p.from + cut.size.min(bytes.len() - p.from);
    let line = answer_bytes(
        run,
        &bytes[p.from..end],
        cut.fields,
        request,
        out,
        p.at,
        p.index,
    );
    Advance {
        from: end,
        at: line.at,
        index: p.index + 1,
        refused: line.refused,
    }
}
