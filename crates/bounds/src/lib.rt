#![tactic(auto)]

// The tests that change nothing, by their refusals: 4, 7 to 9, 15, 25; and those of tables for 5 (two ranges) and 6.
// They read the allocations' records alone, each once, and no sum that they take passes 2^64.
ghost use Rattle.std.specs.Prelude.{◌≡◌, not, ◌&&◌, List, ℕ, ◌+◌, ◌^◌, ◌<◌, ◌≤◌, leb, ltb, length};
ghost use Rattle.definition.specs.Memory.{Memory, names_never_made, check_ptr, exceeds_bounds, allocation_at, is_live_heap};
ghost use Rattle.definition.specs.Memory as definition;
ghost use Rattle.pointer.specs.Pointer.{provenance_of, thin_pointer_of, back, ahead};
ghost use Rattle.refusal.specs.Number.{refusal_of};
ghost use Rattle.answer.specs.Answer.{reply_to};
ghost use Rattle.answer.specs.Answer.Gives.{Nothing};
ghost use Rattle.tables.specs.Held.{Records};
ghost use Rattle.bounds.specs.Bounds.{place_of, target_in, Points};

use answer::Answer;
use pointer::{Provenance, ThinPointer};
use refusal::Refusal;
use tables::{Allocation, Kind, State};
pub use tables::{is_misaligned, ranges_overlap};

// ---- one look-up
// Which record is looked up for a provenance.
#[tactic(auto, unfolding(crate::specs::Bounds::place_of))]
fn place_of(provenance: Option<Provenance>) -> usize
    ensures place { result ≡ place_of (provenance_of provenance) }
    ensures small { result < 128 }
{
    match provenance {
        Some(Provenance { allocation, .. }) if allocation < 128 => allocation as usize,
        _ => 0,
    }
}

// The record of the allocation that a provenance names; where it names none, or a number from 128 on, the first one, which nobody then uses.
#[tactic(auto, unfolding(crate::specs::Bounds::target_in))]
pub fn target_of(allocs: &[u64], provenance: Option<Provenance>) -> Allocation
    requires { length allocs.now ≡ 1152 }
    ensures { result ≡ target_in allocs.now (provenance_of provenance) }
{
    tables::allocation_at(allocs, place_of(provenance))
}

// ---- 4
// The provenance, whose target has this record, names an allocation or node never made. Behind the last allocation the records have no nodes.
pub fn never_made(a: Allocation, provenance: Option<Provenance>) -> bool
    ensures { (m : Memory) (A : List ℕ) → Records m A → a ≡ target_in A (provenance_of provenance) → result ≡ names_never_made m (provenance_of provenance) }
{
    match provenance {
        None => false,
        Some(Provenance { allocation, node }) => allocation >= 128 || node as usize >= a.nodes,
    }
}

// ---- 7 to 9
// `back` bytes below addr and `ahead` bytes from it on are not all among the `size` bytes from address on.
fn is_outside(address: u64, size: u64, addr: u64, back: u64, ahead: u64) -> bool
    requires { address + size < 2 ^ 64 }
    ensures { result ≡ not (leb (address + back) addr && leb (addr + ahead) (address + size)) }
{
    let end = address + size;
    addr < address || addr - address < back || end < addr || end - addr < ahead
}

// Check if the given pointer, whose target has this record, is dereferenceable for `back` bytes below it and `ahead` bytes from it on.
pub fn check_ptr(a: Allocation, p: ThinPointer, back: u64, ahead: u64) -> Result<(), Refusal>
    requires { a.address + a.size < 2 ^ 64 }
    ensures { (m : Memory) (A : List ℕ) → Points m A (provenance_of p.provenance) → a ≡ target_in A (provenance_of p.provenance)
        → refusal_of result ≡ check_ptr (definition.target m (thin_pointer_of p)) (thin_pointer_of p) back ahead }
{
    if back == 0 && ahead == 0 {
        return Ok(());
    }
    if let None = p.provenance {
        return Err(Refusal::MissingProvenance);
    }
    if a.state != State::Live as u64 {
        return Err(Refusal::DeadAllocation);
    }
    if is_outside(a.address, a.size as u64, p.addr, back, ahead) {
        return Err(Refusal::OutOfBounds);
    }
    Ok(())
}

// 4, then `check_ptr`.
#[tactic(auto, unfolding(definition::specs::Memory::dereferenceable))]
fn reach_refusal(allocs: &[u64], p: ThinPointer, back: u64, ahead: u64) -> Result<(), Refusal>
    requires { (m : Memory) × Records m allocs.now }
    ensures { (m : Memory) → Records m allocs.now
        → refusal_of result ≡ (definition.dereferenceable (thin_pointer_of p) back ahead m).0.refusal }
{
    let a = target_of(allocs, p.provenance);
    if never_made(a, p.provenance) {
        return Err(Refusal::NeverMade);
    }
    check_ptr(a, p, back, ahead)
}

// Its answer.
#[tactic(auto, unfolding(definition::specs::Memory::dereferenceable))]
fn within_reach(allocs: &[u64], p: ThinPointer, back: u64, ahead: u64) -> Answer
    requires { (m : Memory) × Records m allocs.now }
    ensures { (m : Memory) → Records m allocs.now → result ≡ reply_to Nothing (definition.dereferenceable (thin_pointer_of p) back ahead m).0 }
{
    Answer::from(reach_refusal(allocs, p, back, ahead))
}

// Test whether the given pointer is dereferenceable for the given size.
pub fn dereferenceable(allocs: &[u64], p: ThinPointer, len: u64) -> Answer
    requires { (m : Memory) × Records m allocs.now }
    ensures { (m : Memory) → Records m allocs.now → result ≡ reply_to Nothing (definition.dereferenceable (thin_pointer_of p) 0 len m).0 }
{
    within_reach(allocs, p, 0, len)
}

// The same with a signed notion of length: a negative one reaches back from the pointer, and no address wraps.
pub fn signed_dereferenceable(allocs: &[u64], p: ThinPointer, len: i64) -> Answer
    requires { (m : Memory) × Records m allocs.now }
    ensures { (m : Memory) → Records m allocs.now → result ≡ reply_to Nothing (definition.dereferenceable (thin_pointer_of p) (back len) (ahead len) m).0 }
{
    within_reach(
        allocs,
        p,
        pointer::bytes_back(len),
        pointer::bytes_ahead(len),
    )
}

// ---- 15
// Of what is bounded so much is used that so much more exceeds the bound.
fn lacks(bound: usize, used: usize, more: usize) -> bool
    requires { used ≤ bound }
    ensures { result ≡ ltb bound (used + more) }
{
    bound - used < more
}

// The memory with so much more would exceed a bound. All four are compared, with no branch.
pub fn exceeds_bounds(
    allocs: &[u64],
    allocations: usize,
    words: usize,
    nodes: usize,
    codes: usize,
) -> bool
    requires { (m : Memory) × Records m allocs.now }
    ensures { (m : Memory) → Records m allocs.now
        → result ≡ exceeds_bounds m (record { allocations = allocations; words = words; nodes = nodes; codes = codes }) }
{
    let count = tables::made_count(allocs);
    let used = tables::starts_at(allocs, count);
    lacks(128, count, allocations)
        | lacks(4096, used.words, words)
        | lacks(1024, used.nodes, nodes)
        | lacks(32768, used.codes, codes)
}

// ---- 25
// Allocation i is live, and of the heap.
fn is_live_heap(allocs: &[u64], i: usize) -> bool
    requires { (m : Memory) × (Records m allocs.now × (i < length m)) }
    ensures { (m : Memory) → Records m allocs.now → result ≡ is_live_heap (allocation_at m i) }
{
    let a = tables::allocation_at(allocs, i);
    a.state == State::Live as u64 && a.kind == Kind::Heap as u64
}

// Check if there are any memory leaks; the answer names the lowest.
pub fn leak_check(allocs: &[u64]) -> Answer
    requires { (m : Memory) × Records m allocs.now }
    ensures { (m : Memory) → Records m allocs.now → result ≡ reply_to Nothing (definition.leak_check m).0 }
{
    let count = tables::made_count(allocs);
    for i in 0..count {
        if is_live_heap(allocs, i) {
            return Answer::Leak(i as u32);
        }
    }
    Answer::Accepted
}
