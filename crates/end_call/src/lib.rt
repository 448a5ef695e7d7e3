#![tactic(auto)]

// The end of a call: the protectors of its frame are released. mem.rs: `TreeBorrowsFrameExtra`, `release_protector`, `end_call`.
// specs/Release.antt says what is asked and what is left, in the definition's terms. A new call only opens its frame: `frames::open_frame`.
ghost use Rattle.std.specs.Prelude.{◌≡◌, true, not, ◌++◌, ◌-◌, ◌≤◌, ◌<◌, length, take, drop, replicate};
ghost use Rattle.definition.specs.Notation.{any};
ghost use Rattle.definition.specs.Memory.{Memory, was_made};
ghost use Rattle.definition.specs.Memory.Liveness.{Live};
ghost use Rattle.refusal.specs.Number.{refusal_of};
ghost use Rattle.frames.specs.List.{provenance_of, entries_of};
ghost use Rattle.frames.specs.Buffer.{entries_in};
ghost use Rattle.tables.specs.Held.{Records};
ghost use Rattle.tree.specs.Table.{HoldsAll, Some, Each};
ghost use Rattle.tree.specs.Requests as tree;
ghost use Rattle.parts.specs.Trees.{HoldsMarked};
ghost use Rattle.end_call.specs.Release.{AllMade, Spans, Touched, Released, ReleasedUntil, ReleasedAll, Checked, Ended};

use answer::Answer;
use frames::{Entries, Entry};
use parts::Span;
use pointer::Provenance;
use refusal::Refusal;
use tables::{Starts, State};

// ---- one entry
// In a live allocation of at most 4,096 bytes, with a row for work that has room for it: a short one is made in less time.
fn release_live(
    parents: &[u16],
    protectors: &mut [u8],
    codes: &mut [u8],
    width: usize,
    node: usize,
) -> Result<(), Refusal>
    requires some { Some (λ nodes. HoldsAll nodes width parents.now protectors.old codes.old) }
    requires node_in_bounds { (node < length parents.now) × (width ≤ 4096) }
    ensures { Each (λ nodes. HoldsAll nodes width parents.now protectors.old codes.old) (λ nodes. tree.Released Live node nodes (refusal_of result) protectors.new codes.new) }
{
    if width <= 64 {
        tree::release(parents, protectors, codes, &mut [0; 64], width, node)
    } else {
        tree::release(parents, protectors, codes, &mut [0; 4096], width, node)
    }
}

// The first refusal, 16 to 23 or 26 to 28, with marks and codes as they were; or none, with the entry's node released.
fn release_entry(
    allocs: &[u64],
    parents: &[u16],
    protectors: &mut [u8],
    codes: &mut [u8],
    e: Entry,
) -> Result<(), Refusal>
    requires { (m : Memory) × (HoldsMarked m allocs.now parents.now protectors.old codes.old × (was_made m (provenance_of e) ≡ true)) }
    ensures { (m : Memory) → HoldsMarked m allocs.now parents.now protectors.old codes.old → was_made m (provenance_of e) ≡ true
        → Released m (provenance_of e) (refusal_of result) protectors.new codes.new }
{
    let node = e.node as usize;
    let a = tables::allocation_at(allocs, e.allocation as usize);
    let t = parts::parts_of(a);
    if a.state != State::Live as u64 {
        return tree::release_dead(
            &protectors[t.nodes.start..t.nodes.end],
            &mut codes[t.codes.start..t.codes.end],
            t.width,
            node,
        );
    }
    release_live(
        &parents[t.nodes.start..t.nodes.end],
        &mut protectors[t.nodes.start..t.nodes.end],
        &mut codes[t.codes.start..t.codes.end],
        t.width,
        node,
    )
}

// ---- all entries of a list
// Some entry is refused with 4.
fn any_never_made(allocs: &[u64], list: Entries) -> bool
    requires records { (m : Memory) × Records m allocs.now }
    requires count_bound { list.count ≤ 64 }
    ensures { (m : Memory) → Records m allocs.now → result ≡ any (λ e. not (was_made m e)) (entries_of list) }
{
    for e in &list.list[..list.count] {
        let provenance = Some(Provenance {
            allocation: e.allocation,
            node: e.node,
        });
        if bounds::never_made(bounds::target_of(allocs, provenance), provenance) {
            return true;
        }
    }
    false
}

// "Release, in list order", each on what the ones before it left, up to the first refusal. Each number is an entry's.
fn release_until(
    allocs: &[u64],
    parents: &[u16],
    protectors: &mut [u8],
    codes: &mut [u8],
    numbers: &[u32],
) -> Result<(), Refusal>
    requires { (m : Memory) × (HoldsMarked m allocs.now parents.now protectors.old codes.old × AllMade m (entries_in numbers.now)) }
    ensures { (m : Memory) → HoldsMarked m allocs.now parents.now protectors.old codes.old → AllMade m (entries_in numbers.now)
        → ReleasedUntil m (entries_in numbers.now) (refusal_of result) protectors.new codes.new }
{
    for &number in numbers {
        release_entry(allocs, parents, protectors, codes, frames::entry_in(number))?;
    }
    Ok(())
}

// ---- all or none: what the releases may change is saved
// The allocations between the least and the greatest that an entry is in. An entry's number has its allocation in front.
fn span_of(numbers: &[u32]) -> Span
    ensures { Spans (entries_in numbers.now) result.start result.end }
{
    if numbers.is_empty() {
        return Span { start: 0, end: 0 };
    }
    let mut least = numbers[0];
    let mut greatest = numbers[0];
    for &number in numbers {
        least = least.min(number);
        greatest = greatest.max(number);
    }
    Span {
        start: (least / 4096) as usize,
        end: (greatest / 4096) as usize + 1,
    }
}

// A part of src at the front of dst.
fn save(dst: &mut [u8], src: &[u8], start: usize, end: usize)
    requires { (start ≤ end) × ((end ≤ length src.now) × (end - start ≤ length dst.old)) }
    ensures { dst.new ≡ take (end - start) (drop start src.now) ++ drop (end - start) dst.old }
{
    tables::copy_row(dst, &src[start..end]);
}

// And back.
fn put_back(dst: &mut [u8], saved: &[u8], start: usize, end: usize)
    requires { (start ≤ end) × ((end ≤ length dst.old) × (end - start ≤ length saved.now)) }
    ensures { dst.new ≡ take start dst.old ++ (take (end - start) saved.now ++ drop end dst.old) }
{
    tables::copy_row(&mut dst[start..end], &saved[..end - start]);
}

// All of them, or none: the marks and codes of the allocations from one start to another, where all entries are, are saved first, and
// put back after a refusal.
fn release_all(
    allocs: &[u64],
    parents: &[u16],
    protectors: &mut [u8],
    codes: &mut [u8],
    area: &mut [u8],
    numbers: &[u32],
    from: Starts,
    to: Starts,
) -> Result<(), Refusal>
    requires holds_marked { (m : Memory) × (HoldsMarked m allocs.now parents.now protectors.old codes.old × AllMade m (entries_in numbers.now)) }
    requires touched { Touched allocs.now (entries_in numbers.now) from to × (to.codes - from.codes ≤ length area.old) }
    ensures { (m : Memory) → HoldsMarked m allocs.now parents.now protectors.old codes.old → AllMade m (entries_in numbers.now)
        → ReleasedAll m (entries_in numbers.now) (refusal_of result) protectors.new codes.new }
{
    let mut marks = [0u8; 1024];
    save(&mut marks, protectors, from.nodes, to.nodes);
    save(area, codes, from.codes, to.codes);
    if let Err(refusal) = release_until(allocs, parents, protectors, codes, numbers) {
        put_back(protectors, &marks, from.nodes, to.nodes);
        put_back(codes, area, from.codes, to.codes);
        return Err(refusal);
    }
    Ok(())
}

// Where the marks and codes of the entries' allocations start, and where they end.
fn touched(allocs: &[u64], numbers: &[u32]) -> (Starts, Starts)
    requires { (m : Memory) × (Records m allocs.now × AllMade m (entries_in numbers.now)) }
    ensures { Touched allocs.now (entries_in numbers.now) result.0 result.1 }
{
    let span = span_of(numbers);
    (
        tables::starts_at(allocs, span.start),
        tables::starts_at(allocs, span.end),
    )
}

// With an area of its own, where one is needed: the release of one entry leaves all as it was where it is refused. A short one is made in less time.
fn release_list(
    allocs: &[u64],
    parents: &[u16],
    protectors: &mut [u8],
    codes: &mut [u8],
    numbers: &[u32],
) -> Result<(), Refusal>
    requires { (m : Memory) × (HoldsMarked m allocs.now parents.now protectors.old codes.old × AllMade m (entries_in numbers.now)) }
    ensures { (m : Memory) → HoldsMarked m allocs.now parents.now protectors.old codes.old → AllMade m (entries_in numbers.now)
        → ReleasedAll m (entries_in numbers.now) (refusal_of result) protectors.new codes.new }
{
    if numbers.len() < 2 {
        return release_until(allocs, parents, protectors, codes, numbers);
    }
    let (from, to) = touched(allocs, numbers);
    if to.codes - from.codes <= 1024 {
        let area = &mut [0; 1024];
        release_all(allocs, parents, protectors, codes, area, numbers, from, to)
    } else {
        let area = &mut [0; 32768];
        release_all(allocs, parents, protectors, codes, area, numbers, from, to)
    }
}

// ---- an end call
// In a run, where every entry of a frame was made, and nobody lends a working area. Each number is an entry's.
pub fn end_call_in_run(
    allocs: &[u64],
    parents: &[u16],
    protectors: &mut [u8],
    codes: &mut [u8],
    numbers: &[u32],
) -> Answer
    requires { (m : Memory) × (HoldsMarked m allocs.now parents.now protectors.old codes.old × AllMade m (entries_in numbers.now)) }
    ensures { (m : Memory) → HoldsMarked m allocs.now parents.now protectors.old codes.old → AllMade m (entries_in numbers.now)
        → Ended m (entries_in numbers.now) result protectors.new codes.new }
{
    Answer::from(release_list(allocs, parents, protectors, codes, numbers))
}

// "An end call checks 4 for all entries, then 16 to 23 entry by entry.", and 26 to 28 with them.
fn end_call_refusal(
    allocs: &[u64],
    parents: &[u16],
    protectors: &mut [u8],
    codes: &mut [u8],
    area: &mut [u8],
    list: Entries,
) -> Result<(), Refusal>
    requires holds_marked { (m : Memory) × HoldsMarked m allocs.now parents.now protectors.old codes.old }
    requires count_bound { (list.count ≤ 64) × (length area.old ≡ 32768) }
    ensures { (m : Memory) → HoldsMarked m allocs.now parents.now protectors.old codes.old
        → Checked m (entries_of list) (refusal_of result) protectors.new codes.new }
{
    if any_never_made(allocs, list) {
        return Err(Refusal::NeverMade);
    }
    let numbers = frames::numbers_of(list);
    let numbers = &numbers[..list.count];
    let (from, to) = touched(allocs, numbers);
    release_all(allocs, parents, protectors, codes, area, numbers, from, to)
}

// A refusal leaves marks and codes as they were. The working area is zero afterwards, whatever it held and whatever the answer.
pub fn end_call_held(
    allocs: &[u64],
    parents: &[u16],
    protectors: &mut [u8],
    codes: &mut [u8],
    area: &mut [u8],
    list: Entries,
) -> Answer
    requires holds_marked { (m : Memory) × HoldsMarked m allocs.now parents.now protectors.old codes.old }
    requires count_bound { (list.count ≤ 64) × (length area.old ≡ 32768) }
    ensures ended { (m : Memory) → HoldsMarked m allocs.now parents.now protectors.old codes.old
        → Ended m (entries_of list) result protectors.new codes.new }
    ensures zero { area.new ≡ replicate 32768 0 }
{
    let released = end_call_refusal(allocs, parents, protectors, codes, area, list);
    area.fill(0);
    Answer::from(released)
}
