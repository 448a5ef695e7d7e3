#![tactic(auto)]

// Reads a run from standard input and prints its verdict: the line of each request up to the first that is refused, and the memory that is left.
ghost use Rattle.std.specs.Prelude.{ℕ, ◌+◌, ◌-◌, ◌≤◌, ◌<◌, ◌^◌, ◌≡◌, true, List, length, IfOk, OnErr, IsErr};
ghost use Rattle.definition.specs.Memory.{Memory};
ghost use Rattle.definition.specs.Run.{start};
ghost use Rattle.definition.specs.Output.{memory_lines};
ghost use Rattle.tables.specs.Held as tables;
ghost use Rattle.tables.specs.Held.{WellFormed};
ghost use Rattle.state.specs.Run.{memory_of, Holds, SameBuffers};
ghost use Rattle.state.specs.Lengths.{have_lengths};
ghost use Rattle.pointer.specs.declared.width.Width.TheVariants.{Bits64};
ghost use Rattle.report.specs.Written.{Written};
ghost use Rattle.verdict.specs.Progress.{lacks_some, goes_on, Ready, HasRead, is_long, flushed_as, with_text_to};
ghost use Rattle.verdict.specs.Came.{Came, Made, AllMade, IsPrinted};

use judge::Advance;
use pointer::width::Width;
use state::RunState;
use std::io::{self, Read};
use std::process::ExitCode;

// The input buffer holds bytes up to `end`, of which those from `advance.from` on are not yet performed; the text up to `advance.at` is not yet written. Bytes
// at hand are performed after the input has `ended` as before.
#[derive(Clone, Copy)]
struct Progress {
    advance: Advance,
    end: usize,
    ended: bool,
}

// Reading or writing failed, and that is told: nothing more is done.
#[derive(Clone, Copy)]
struct Failed;

fn goes_on(p: Progress) -> bool
    ensures { result ≡ goes_on p }
{
    !p.advance.refused && (!p.ended || p.advance.from < p.end)
}

// Of the next request, of `size` bytes, fewer are at hand, and more may come.
fn lacks(size: usize, hand: usize, ended: bool) -> bool
    ensures { result ≡ lacks_some size hand ended }
{
    hand < size && !ended
}

// What failed, and why, on standard error. Where that fails too, there is nobody to tell.
fn fail(rt: &HostRuntime, what: &str, error: io::Error) -> Failed {
    let _ = eprintln!(rt; "{what}: {error}");
    Failed
}

fn write_text(rt: &HostRuntime, text: &[u8]) -> Result<(), Failed> {
    rt.stdout()
        .write_all(text)
        .map_err(|error| fail(rt, "write", error))
}

fn read_bytes(rt: &HostRuntime, bytes: &mut [u8]) -> Result<usize, Failed>
    ensures { IfOk result (λ n. n ≤ length bytes.new) }
{
    rt.stdin()
        .read(bytes)
        .map_err(|error| fail(rt, "read", error))
}

// Whoever feeds the program has every answer before more is read.
fn read_more(
    rt: &HostRuntime,
    input: &mut [u8],
    out: &[u8],
    p: Progress,
) -> Result<Progress, Failed>
    requires ready { Ready p input.old }
    requires text { p.advance.at ≤ length out.now }
    requires room { p.end - p.advance.from < length input.old }
    ensures { IfOk result (λ r. HasRead p input.old r input.new) }
{
    write_text(rt, &out[..p.advance.at])?;
    let kept = stream::move_to_front(input, p.advance.from, p.end);
    let n = read_bytes(rt, &mut input[kept..])?;
    Ok(Progress {
        advance: Advance {
            from: 0,
            at: 0,
            ..p.advance
        },
        end: kept + n,
        ended: n == 0,
    })
}

// Writes the text where there may be no room for another line and the memory.
fn flushed(rt: &HostRuntime, out: &[u8], p: Progress, next: Advance) -> Result<Progress, Failed>
    requires { next.at ≤ length out.now }
    ensures ok { IfOk result (λ r. r ≡ flushed_as p next) }
    ensures err { OnErr result (is_long next ≡ true) }
{
    if next.at <= 0xf000 {
        return Ok(Progress { advance: next, ..p });
    }
    write_text(rt, &out[..next.at])?;
    Ok(Progress {
        advance: Advance { at: 0, ..next },
        ..p
    })
}

// Reads where the next request lacks bytes, and else performs it.
fn turn(
    rt: &HostRuntime,
    run: &mut RunState,
    request: &mut [u32; 4100],
    input: &mut [u8; 65536],
    out: &mut [u8; 0x38000],
    p: Progress,
) -> Result<Progress, Failed>
    requires came { (bytes : List ℕ) × ((written : List ℕ) × Came bytes written p input.old out.old run.old) }
    requires goes_on { goes_on p ≡ true }
    requires index { p.advance.index + 1 < 2 ^ 64 }
    ensures made { (bytes written : List ℕ)
        → Came bytes written p input.old out.old run.old
        → IfOk result (λ r. Made bytes written p input.old out.old r input.new out.new run.new) }
    ensures same { SameBuffers run.old run.new }
{
    let hand = &input[p.advance.from..p.end];
    let cut = stream::next_cut(hand);
    if lacks(cut.size, hand.len(), p.ended) {
        return read_more(rt, input, out, p);
    }
    let next = judge::turn::next(run, &input[..p.end], request, out, p.advance, cut);
    flushed(rt, out, p, next)
}

// Turn by turn. A proved loop has to end, and nothing says that the input does: so it counts up to a number that no run reaches.
fn take_turns(
    rt: &HostRuntime,
    run: &mut RunState,
    request: &mut [u32; 4100],
    input: &mut [u8; 65536],
    out: &mut [u8; 0x38000],
) -> Result<Progress, Failed>
    requires holds { Holds start run.old }
    ensures made { IfOk result (λ r. AllMade r input.new out.new run.new) }
    ensures same { SameBuffers run.old run.new }
{
    let mut p = Progress {
        advance: Advance {
            from: 0,
            at: 0,
            index: 0,
            refused: false,
        },
        end: 0,
        ended: false,
    };
    for _ in 0..u64::MAX - 1 {
        if !goes_on(p) {
            break;
        }
        p = turn(rt, run, request, input, out, p)?;
    }
    Ok(p)
}

// The lines of the memory, behind those that are not yet written.
fn finish(run: &RunState, out: &mut [u8], p: Progress) -> Progress
    requires well_formed { WellFormed (memory_of run.now) }
    requires room { p.advance.at + 0x28000 ≤ length out.old }
    ensures value { result ≡ with_text_to result.advance.at p }
    ensures written { (m : Memory) → tables.Holds m (memory_of run.now)
        → Written out.old p.advance.at (memory_lines 0 m) out.new result.advance.at }
{
    let end = report::allocations::memory_lines(
        out,
        p.advance.at,
        run.allocs,
        run.parents,
        run.protectors,
        run.words,
        run.codes,
    );
    Progress {
        advance: Advance {
            at: end,
            ..p.advance
        },
        ..p
    }
}

// Reads the run, and writes its text but for the end that stands in front of `out` then.
fn judge_input(
    rt: &HostRuntime,
    run: &mut RunState,
    request: &mut [u32; 4100],
    input: &mut [u8; 65536],
    out: &mut [u8; 0x38000],
) -> Result<Progress, Failed>
    requires width { run.old.width ≡ Bits64 }
    requires lengths { have_lengths (memory_of run.old) run.old.frames.now ≡ true }
    ensures printed { IfOk result (λ r. IsPrinted r out.new) }
    ensures same { SameBuffers run.old run.new }
{
    run.clear();
    let p = take_turns(rt, run, request, input, out)?;
    Ok(finish(run, out, p))
}

// The end of the text. Where reading or writing failed before, that is told and nothing is written.
fn write_rest(rt: &HostRuntime, out: &[u8], judged: Result<Progress, Failed>) -> Result<(), Failed>
    requires { IfOk judged (λ p. p.advance.at ≤ length out.now) }
    ensures { OnErr judged (IsErr result) }
{
    let p = judged?;
    write_text(rt, &out[..p.advance.at])
}

fn main(rt: HostRuntime) -> ExitCode {
    let mut allocs = [0u64; 1152];
    let mut parents = [0u16; 1024];
    let mut protectors = [0u8; 1024];
    let mut words = [0u32; 4096];
    let mut codes = [0u8; 32768];
    let mut frames = [0u32; 2080];
    let mut request = [0u32; 4100];
    let mut input = [0u8; 65536];
    let mut out = [0u8; 0x38000];
    let mut run = RunState {
        allocs: &mut allocs,
        parents: &mut parents,
        protectors: &mut protectors,
        words: &mut words,
        codes: &mut codes,
        frames: &mut frames,
        width: Width::Bits64,
    };
    let judged = judge_input(&rt, &mut run, &mut request, &mut input, &mut out);
    match write_rest(&rt, &out, judged) {
        Ok(()) => ExitCode::SUCCESS,
        Err(Failed) => ExitCode::FAILURE,
    }
}
