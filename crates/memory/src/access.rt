// Loads and stores. Both are one access: the tests of the pointer, the visit of the allocation's tree, and then the bytes.
ghost use Rattle.std.specs.Prelude.{◌≡◌, IfOk, List, ◌++◌, ℕ, ◌+◌, ◌^◌, ◌≤◌, ◌<◌, length, drop};
ghost use Rattle.std.proofs.Math.Seq.{paste};
ghost use Rattle.definition.specs.Tree.{visit_refusal};
ghost use Rattle.definition.specs.Memory.{Memory, allocation_at};
ghost use Rattle.refusal.specs.Number.{refusal_of};
ghost use Rattle.pointer.specs.Pointer.{provenance_of, thin_pointer_of};
ghost use Rattle.permission.specs.Codes.{access_kind};
ghost use Rattle.permission.specs.declared.AccessKind.TheVariants.{Read, Write};
ghost use Rattle.tables.specs.Held.{Records};
ghost use Rattle.bounds.specs.Bounds.{target_in};
ghost use Rattle.parts.specs.Trees.{HoldsTrees, TreeVisited};
ghost use Rattle.memory.specs.Buffers.{HoldsWords};
ghost use Rattle.memory.specs.Access.{access_of, load_of, store_of, pointer_refusal, Found, Reached, visit_at, words_start, Accessed, Loaded, Stored};

use answer::Answer;
use permission::AccessKind;
use pointer::ThinPointer;
use refusal::Refusal;
use tables::Allocation;

// 4, 6 and 7 to 9, of a pointer whose target has this record.
#[tactic(auto, unfolding(crate::specs::Access::pointer_refusal))]
fn pointer_refusal(a: Allocation, p: ThinPointer, len: u64, exponent: u64) -> Result<(), Refusal>
    requires size_bound { a.address + a.size < 2 ^ 64 }
    requires exponent_bound { exponent < 64 }
    ensures { (m : Memory) (A : List ℕ) → Records m A → a ≡ target_in A (provenance_of p.provenance) → refusal_of result ≡ pointer_refusal (thin_pointer_of p) len exponent m }
{
    if bounds::never_made(a, p.provenance) {
        return Err(Refusal::NeverMade);
    }
    if bounds::is_misaligned(p.addr, exponent) {
        return Err(Refusal::Misaligned);
    }
    bounds::check_ptr(a, p, 0, len)
}

// The access of `len` bytes at an address, through a node of the allocation with this record: its tree is a part of each table.
fn access_tree(
    parents: &[u16],
    codes: &mut [u8],
    kind: AccessKind,
    a: Allocation,
    node: usize,
    addr: u64,
    len: usize,
) -> Result<(), Refusal>
    requires { (m : Memory) × ((n : ℕ) × (Found m n a parents.now codes.old × Reached m n node addr len)) }
    ensures { (m : Memory) (n : ℕ) → Found m n a parents.now codes.old → Reached m n node addr len
        → TreeVisited m n (visit_refusal (visit_at (access_kind kind) m n node addr len) (allocation_at m n).nodes) (visit_at (access_kind kind) m n node addr len) (refusal_of result) codes.new }
{
    let t = parts::parts_of(a);
    let from = (addr - a.address) as usize;
    tree::access(
        &parents[t.nodes.start..t.nodes.end],
        &mut codes[t.codes.start..t.codes.end],
        t.width,
        node,
        kind,
        from,
        len,
    )
}

// All of an access but its bytes: refused, with the codes as they were; or with the codes as the visit leaves them, and where the bytes at the
// pointer start in the data, 0 where there are none. At length zero nothing is visited.
// It is called in two places: where it is not inlined, a run of loads and stores takes 6 % more instructions.
#[inline(always)]
fn access(
    allocs: &[u64],
    parents: &[u16],
    codes: &mut [u8],
    kind: AccessKind,
    p: ThinPointer,
    len: u64,
    exponent: u64,
) -> Result<usize, Refusal>
    requires holds_trees { (m : Memory) × HoldsTrees m allocs.now parents.now codes.old }
    requires exponent_bound { exponent < 64 }
    ensures accessed { (m : Memory) (bytes : List ℕ) → HoldsTrees m allocs.now parents.now codes.old
        → Accessed (access_of (access_kind kind) (thin_pointer_of p) len exponent bytes) m (refusal_of result) codes.new }
    ensures start_value { (m : Memory) → HoldsTrees m allocs.now parents.now codes.old
        → IfOk result (λ start. start ≡ words_start (thin_pointer_of p) len m) }
{
    let a = bounds::target_of(allocs, p.provenance);
    pointer_refusal(a, p, len, exponent)?;
    match p.provenance {
        Some(provenance) if len > 0 => {
            let start = a.starts.words + (p.addr - a.address) as usize;
            access_tree(
                parents,
                codes,
                kind,
                a,
                provenance.node as usize,
                p.addr,
                len as usize,
            )?;
            Ok(start)
        }
        _ => Ok(0),
    }
}

// ---- the bytes
// Copies src to the front of dst.
pub fn copy_words(dst: &mut [u32], src: &[u32])
    requires { length src.now ≤ length dst.old }
    ensures { dst.new ≡ src.now ++ drop (length src.now) dst.old }
{
    tables::copy_row(dst, src);
}

// Writes bytes from a place in the data on.
fn put_words(words: &mut [u32], start: usize, bytes: &[u32])
    requires { start + length bytes.now ≤ length words.old }
    ensures { words.new ≡ paste words.old start bytes.now (length bytes.now) }
{
    copy_words(&mut words[start..], bytes);
}

// ---- the requests
// The loaded words are a part of the data, which the answer names.
// Inlined into a run's request: where the answer is handed back through memory, it is read before its write is done, and a load of no bytes takes
// a quarter longer.
#[inline(always)]
pub fn load(
    allocs: &[u64],
    parents: &[u16],
    codes: &mut [u8],
    p: ThinPointer,
    len: u64,
    exponent: u64,
) -> Answer
    requires holds_trees { (m : Memory) × HoldsTrees m allocs.now parents.now codes.old }
    requires exponent_bound { exponent < 64 }
    ensures { (m : Memory) → HoldsTrees m allocs.now parents.now codes.old
        → Loaded (load_of (thin_pointer_of p) len exponent) m result codes.new }
{
    match access(allocs, parents, codes, AccessKind::Read, p, len, exponent) {
        Ok(start) => Answer::Words {
            start,
            len: len as usize,
        },
        Err(refusal) => Answer::from(refusal),
    }
}

// The stored bytes are written where the pointer points. Inlined as a load is.
#[inline(always)]
pub fn store(
    allocs: &[u64],
    parents: &[u16],
    words: &mut [u32],
    codes: &mut [u8],
    p: ThinPointer,
    bytes: &[u32],
    exponent: u64,
) -> Answer
    requires holds_words { (m : Memory) × HoldsWords m allocs.now parents.now words.old codes.old }
    requires exponent_bound { exponent < 64 }
    ensures { (m : Memory) → HoldsWords m allocs.now parents.now words.old codes.old
        → Stored (store_of (thin_pointer_of p) bytes.now exponent) m result words.new codes.new }
{
    let len = bytes.len() as u64;
    match access(allocs, parents, codes, AccessKind::Write, p, len, exponent) {
        Ok(start) => {
            put_words(words, start, bytes);
            Answer::Accepted
        }
        Err(refusal) => Answer::from(refusal),
    }
}

// Either, as a run asks for it: by the kind, a load with its length or a store with its bytes. A load leaves the words.
pub fn load_or_store(
    allocs: &[u64],
    parents: &[u16],
    words: &mut [u32],
    codes: &mut [u8],
    kind: AccessKind,
    p: ThinPointer,
    len: u64,
    exponent: u64,
    bytes: &[u32],
) -> Answer
    requires holds_words { (m : Memory) × HoldsWords m allocs.now parents.now words.old codes.old }
    requires exponent_bound { exponent < 64 }
    ensures loaded { (m : Memory) → kind ≡ Read → HoldsWords m allocs.now parents.now words.old codes.old
        → Loaded (load_of (thin_pointer_of p) len exponent) m result codes.new × (words.new ≡ words.old) }
    ensures stored { (m : Memory) → kind ≡ Write → HoldsWords m allocs.now parents.now words.old codes.old
        → Stored (store_of (thin_pointer_of p) bytes.now exponent) m result words.new codes.new }
{
    match kind {
        AccessKind::Read => load(allocs, parents, codes, p, len, exponent),
        AccessKind::Write => store(allocs, parents, words, codes, p, bytes, exponent),
    }
}
