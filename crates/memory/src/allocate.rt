// Kind 0: an allocation at a proposed address.
ghost use Rattle.std.specs.Prelude.{◌≡◌, not, ◌+◌, ◌-◌, ◌<◌, leb, length};
ghost use Rattle.definition.specs.Notation.{any};
ghost use Rattle.definition.specs.Width.{addresses};
ghost use Rattle.definition.specs.Memory.{Memory, AllocationKind, allocation_at, overlaps, is_pickable};
ghost use Rattle.definition.specs.Memory as definition;
ghost use Rattle.pointer.specs.Width.{width_of};
ghost use Rattle.tables.specs.Held.{Records};
ghost use Rattle.memory.specs.Allocate.{CanAllocate, Allocated};

use answer::Answer;
use pointer::Provenance;
use pointer::width::Width;
use refusal::Refusal;
use tables::State;

// Allocation i is live and overlaps the range.
fn overlaps_at(allocs: &[u64], i: usize, address: u64, len: u64) -> bool
    requires { (m : Memory) × (Records m allocs.now × (i < length m)) }
    ensures { (m : Memory) → Records m allocs.now → result ≡ overlaps address len (allocation_at m i) }
{
    let a = tables::allocation_at(allocs, i);
    a.state == State::Live as u64 && bounds::ranges_overlap(a.address, a.size as u64, address, len)
}

// Some live allocation overlaps the range.
fn overlaps_any(allocs: &[u64], address: u64, len: u64) -> bool
    requires { (m : Memory) × Records m allocs.now }
    ensures { (m : Memory) → Records m allocs.now → result ≡ any (overlaps address len) m }
{
    for i in 0..tables::made_count(allocs) {
        if overlaps_at(allocs, i, address, len) {
            return true;
        }
    }
    false
}

// The range ends behind the last address of the width. The sum is compared as a difference, of an address that is not too high.
fn ends_too_high(width: Width, address: u64, len: u64) -> bool
    ensures { result ≡ not (leb (address + len) (addresses (width_of width) - 1)) }
{
    width.is_too_high(address) || width.last_address() - address < len
}

// 5: what `pick` asks of an address. "above 0, a multiple of the alignment, address + size at most 2^64 − 1, no live allocation overlapping", where the sum
// is at most the last address of the width
#[tactic(auto, unfolding(definition::specs::Memory::is_pickable))]
fn fails_pick(allocs: &[u64], width: Width, len: u64, exponent: u64, address: u64) -> bool
    requires records { (m : Memory) × Records m allocs.now }
    requires exponent_bound { exponent < 64 }
    ensures { (m : Memory) → Records m allocs.now → result ≡ not (is_pickable (width_of width) m len exponent address) }
{
    address == 0
        || bounds::is_misaligned(address, exponent)
        || ends_too_high(width, address, len)
        || overlaps_any(allocs, address, len)
}

// Create a new allocation: 5, 15, then its record and its root's row. The initial contents are uninitialised bytes.
pub fn allocate(
    allocs: &mut [u64],
    codes: &mut [u8],
    width: Width,
    kind: u64,
    len: u64,
    exponent: u64,
    address: u64,
) -> Answer
    requires { (m : Memory) × ((k : AllocationKind) × CanAllocate m k allocs.old codes.old kind exponent) }
    ensures { (m : Memory) (k : AllocationKind) → CanAllocate m k allocs.old codes.old kind exponent
        → Allocated (definition.allocate (width_of width) k len exponent address m) result allocs.new codes.new }
{
    if fails_pick(allocs, width, len, exponent, address) {
        return Answer::from(Refusal::FailsPick);
    }
    let bytes = len as usize;
    if bounds::exceeds_bounds(allocs, 1, bytes, 1, bytes) {
        return Answer::from(Refusal::SizeExceeded);
    }
    let n = tables::append_allocation(allocs, codes, kind, exponent, address, bytes);
    Answer::Pointer(Some(Provenance {
        allocation: n as u32,
        node: 0,
    }))
}
