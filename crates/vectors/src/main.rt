#![tactic(auto)]

// Replays a recorded sample from standard input, and prints how many runs have the text that the Rust printed. The sample is made by
// `recorder --out FILE` of oracle/, whose README.md has its form.
ghost use Rattle.std.specs.Prelude.{ℕ, ◌≤◌, ◌<◌, ◌^◌, ◌≡◌, true, List, length, IfOk, IfSome};
ghost use Rattle.state.specs.Lengths.{have_lengths};
ghost use Rattle.state.specs.Run.{memory_of, SameBuffers};
ghost use Rattle.judge.specs.Whole.{JudgedAs};
ghost use Rattle.vectors.specs.Sample.{record_at, Agrees, Counted};

use judge::TooLong;
use pointer::width::Width;
use state::RunState;
use std::io::{self, Read};

// Where a record's run, its text and its end are.
#[derive(Clone, Copy)]
struct Record {
    run: usize,
    text: usize,
    end: usize,
}

// "length of the run, length of the output, the run, the output"
#[tactic(auto, unfolding(crate::specs::Sample::record_at))]
fn record_at(file: &[u8], at: usize) -> Option<Record>
    requires { at ≤ length file.now }
    ensures at { result ≡ record_at file.now at }
    ensures inside { IfSome result (λ r. (r.run ≤ r.text) × ((r.text ≤ r.end) × (r.end ≤ length file.now))) }
{
    if file.len() - at < 8 {
        return None;
    }
    let run_length = stream::word_at(file, at) as usize;
    let text_length = stream::word_at(file, at + 4) as usize;
    let run = at + 8;
    if file.len() - run < run_length {
        return None;
    }
    let text = run + run_length;
    if file.len() - text < text_length {
        return None;
    }
    Some(Record {
        run,
        text,
        end: text + text_length,
    })
}

fn is_text(judged: Result<usize, TooLong>, out: &[u8], text: &[u8]) -> bool
    requires { (run : List ℕ) × ((before : List ℕ) × JudgedAs run before judged out.now) }
    ensures { (run before : List ℕ) → JudgedAs run before judged out.now → Agrees run text.now (length before) result }
{
    match judged {
        Ok(n) => text == &out[..n],
        Err(TooLong) => false,
    }
}

// The run's verdict has this text.
fn agrees(
    run: &mut RunState,
    bytes: &[u8],
    text: &[u8],
    request: &mut [u32; 4100],
    out: &mut [u8],
) -> bool
    requires lengths { have_lengths (memory_of run.old) run.old.frames.now ≡ true }
    ensures agrees { Agrees bytes.now text.now (length out.old) result }
    ensures lengths { have_lengths (memory_of run.new) run.new.frames.now ≡ true }
    ensures same { SameBuffers run.old run.new }
{
    let judged = judge::whole::judge(run, bytes, request, out);
    is_text(judged, out, text)
}

// So many records, from place 12 on, as far as there are any.
fn count_agreeing(
    run: &mut RunState,
    file: &[u8],
    records: u64,
    request: &mut [u32; 4100],
    out: &mut [u8],
) -> u64
    requires lengths { have_lengths (memory_of run.old) run.old.frames.now ≡ true }
    requires head { 12 ≤ length file.now }
    requires records { records < 2 ^ 32 }
    ensures counted { Counted file.now (length out.old) records 12 result }
    ensures same { SameBuffers run.old run.new }
{
    let mut agree = 0;
    let mut at = 12;
    for _ in 0..records {
        let Some(r) = record_at(file, at) else {
            break;
        };
        let same = agrees(
            run,
            &file[r.run..r.text],
            &file[r.text..r.end],
            request,
            out,
        );
        agree += u64::from(same);
        at = r.end;
    }
    agree
}

fn replay(
    rt: &HostRuntime,
    run: &mut RunState,
    file: &[u8],
    request: &mut [u32; 4100],
    out: &mut [u8],
) -> io::Result<()>
    requires lengths { have_lengths (memory_of run.old) run.old.frames.now ≡ true }
    ensures same { SameBuffers run.old run.new }
{
    if file.len() < 12 || !file.starts_with(b"TBRUNS01") {
        return println!(rt; "not a sample");
    }
    let total = u64::from(stream::word_at(file, 8));
    let agree = count_agreeing(run, file, total, request, out);
    println!(rt; "{agree} of {total} agree")
}

// Reads until the buffer is full or the input ends, and tells how many bytes stand at its front then.
fn read_full(rt: &HostRuntime, file: &mut [u8]) -> io::Result<usize>
    ensures { IfOk result (λ n. n ≤ length file.new) }
{
    // a read gives any number of bytes: no range counts them
    let mut done = 0;
    while done < file.len() {
        let n = rt.stdin().read(&mut file[done..])?;
        if n == 0 {
            break;
        }
        done += n;
    }
    Ok(done)
}

// A sample is read whole. One that is longer than the buffer has records that are not found.
fn replay_input(
    rt: &HostRuntime,
    run: &mut RunState,
    file: &mut [u8],
    request: &mut [u32; 4100],
    out: &mut [u8],
) -> io::Result<()>
    requires lengths { have_lengths (memory_of run.old) run.old.frames.now ≡ true }
    ensures same { SameBuffers run.old run.new }
{
    let n = read_full(rt, file)?;
    replay(rt, run, &file[..n], request, out)
}

fn main(rt: HostRuntime) -> io::Result<()> {
    let mut allocs = [0u64; 1152];
    let mut parents = [0u16; 1024];
    let mut protectors = [0u8; 1024];
    let mut words = [0u32; 4096];
    let mut codes = [0u8; 32768];
    let mut frames = [0u32; 2080];
    let mut file = [0u8; 0x10_0000];
    let mut request = [0u32; 4100];
    let mut out = [0u8; 0x40000];
    let mut run = RunState {
        allocs: &mut allocs,
        parents: &mut parents,
        protectors: &mut protectors,
        words: &mut words,
        codes: &mut codes,
        frames: &mut frames,
        width: Width::Bits64,
    };
    replay_input(&rt, &mut run, &mut file, &mut request, &mut out)
}
