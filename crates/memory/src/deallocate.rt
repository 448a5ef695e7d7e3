// Deallocation: the tests of the pointer and the record, a write to all bytes, and 24 on what it leaves.
ghost use Rattle.std.specs.Prelude.{Some, ◌≡◌, List, ℕ};
ghost use Rattle.definition.specs.Memory.{Memory, AllocationKind, kind_number, refused_with};
ghost use Rattle.refusal.specs.Number.{refusal_of};
ghost use Rattle.pointer.specs.Pointer.{provenance_of, thin_pointer_of};
ghost use Rattle.answer.specs.Answer.{reply_to};
ghost use Rattle.answer.specs.Answer.Gives.{Nothing};
ghost use Rattle.tables.specs.Held.{Records};
ghost use Rattle.bounds.specs.Bounds.{target_in};
ghost use Rattle.parts.specs.Trees.{HoldsMarked};
ghost use Rattle.memory.specs.Deallocate.{record_refusal, refusal_through, FoundMarked, NodeIn, WrittenAll, Deallocated};

use answer::Answer;
use pointer::{Provenance, ThinPointer};
use refusal::Refusal;
use tables::{Allocation, State};

// 8 and 10 to 13.
#[tactic(auto, unfolding(crate::specs::Deallocate::record_refusal))]
fn record_refusal(
    a: Allocation,
    addr: u64,
    kind: u64,
    len: u64,
    exponent: u64,
) -> Result<(), Refusal>
    ensures { refusal_of result ≡ record_refusal a.state a.kind a.exponent a.address a.size addr kind len exponent }
{
    if a.state != State::Live as u64 {
        return Err(Refusal::DeadAllocation);
    }
    if addr != a.address {
        return Err(Refusal::AwayFromStart);
    }
    if kind != a.kind {
        return Err(Refusal::AnotherKind);
    }
    if len != a.size as u64 {
        return Err(Refusal::AnotherSize);
    }
    if exponent != a.exponent {
        return Err(Refusal::AnotherAlignment);
    }
    Ok(())
}

// 4, 8 and 10 to 13, through a provenance whose target has this record.
fn deallocate_refusal(
    a: Allocation,
    provenance: Provenance,
    addr: u64,
    kind: u64,
    len: u64,
    exponent: u64,
) -> Result<(), Refusal>
    ensures { (m : Memory) (A : List ℕ) → Records m A → a ≡ target_in A (provenance_of (Some provenance))
        → refusal_of result ≡ refusal_through (record { allocation = provenance.allocation; node = provenance.node }) addr kind len exponent m }
{
    if bounds::never_made(a, Some(provenance)) {
        return Err(Refusal::NeverMade);
    }
    record_refusal(a, addr, kind, len, exponent)
}

// The write to all bytes of the allocation with this record, through a node, and 24: a refusal leaves the codes as they were.
fn write_all(
    parents: &[u16],
    protectors: &[u8],
    codes: &mut [u8],
    a: Allocation,
    node: usize,
) -> Result<(), Refusal>
    requires { (m : Memory) × ((n : ℕ) × (FoundMarked m n a parents.now protectors.now codes.old × NodeIn m n node)) }
    ensures { (m : Memory) (n : ℕ) → FoundMarked m n a parents.now protectors.now codes.old → NodeIn m n node
        → WrittenAll m n node (refusal_of result) codes.new }
{
    let t = parts::parts_of(a);
    tree::deallocate(
        &parents[t.nodes.start..t.nodes.end],
        &protectors[t.nodes.start..t.nodes.end],
        &mut codes[t.codes.start..t.codes.end],
        t.width,
        node,
    )
}

// The kind is given by its number. What it leaves is said of the answer that the refusal, or none, comes to.
fn remove(
    allocs: &mut [u64],
    parents: &[u16],
    protectors: &[u8],
    codes: &mut [u8],
    p: ThinPointer,
    kind: u64,
    len: u64,
    exponent: u64,
) -> Result<(), Refusal>
    requires { (m : Memory) × HoldsMarked m allocs.old parents.now protectors.now codes.old }
    ensures { (m : Memory) (k : AllocationKind) → HoldsMarked m allocs.old parents.now protectors.now codes.old
        → kind ≡ kind_number k
        → Deallocated (thin_pointer_of p) k len exponent m (reply_to Nothing (refused_with (refusal_of result))) allocs.new codes.new }
{
    let Some(provenance) = p.provenance else {
        return Err(Refusal::MissingProvenance);
    };
    let a = bounds::target_of(allocs, p.provenance);
    deallocate_refusal(a, provenance, p.addr, kind, len, exponent)?;
    write_all(parents, protectors, codes, a, provenance.node as usize)?;
    allocs[provenance.allocation as usize * 9] = State::Dead as u64;
    Ok(())
}

// Deallocation, by its answer.
pub fn deallocate(
    allocs: &mut [u64],
    parents: &[u16],
    protectors: &[u8],
    codes: &mut [u8],
    p: ThinPointer,
    kind: u64,
    len: u64,
    exponent: u64,
) -> Answer
    requires { (m : Memory) × HoldsMarked m allocs.old parents.now protectors.now codes.old }
    ensures { (m : Memory) (k : AllocationKind) → HoldsMarked m allocs.old parents.now protectors.now codes.old
        → kind ≡ kind_number k → Deallocated (thin_pointer_of p) k len exponent m result allocs.new codes.new }
{
    Answer::from(remove(allocs, parents, protectors, codes, p, kind, len, exponent))
}
