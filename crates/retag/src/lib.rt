#![tactic(auto)]

// Retags that add a node. mem.rs: `ReborrowSettings`, `reborrow`, `retag_ptr`. The child's inside bytes are read through it, and these reads are what
// reads through its parent are (definition's Retags): so they are made before it is there, and it is put in as its own read leaves it. Whatever can be
// refused is tested first, so that a refusal leaves nothing to undo.
ghost use Rattle.std.specs.Prelude.{Some, ◌≡◌, true, IfOk, IfErr, ◌&&◌, List, ◌++◌, map, ℕ, ◌+◌, ◌^◌, ◌≤◌, ◌<◌, eqb, ltb, length, take, drop};
ghost use Rattle.definition.specs.Notation.{sum_of, mutate_at};
ghost use Rattle.definition.specs.Permission.{next, code, permission, is_yes};
ghost use Rattle.definition.specs.Permission.AccessKind.{Read};
ghost use Rattle.definition.specs.Permission.NodeRelation.{Local};
ghost use Rattle.definition.specs.Layout.{FreezeMask};
ghost use Rattle.definition.specs.Memory.{Memory, names_never_made, allocation_at, size, exceeds_bounds};
ghost use Rattle.definition.specs.Valid.{Valid};
ghost use Rattle.definition.specs.Frame.{State, frame_at};
ghost use Rattle.definition.specs.Frame as frames;
ghost use Rattle.definition.specs.Retag.{start_perm, entry_bound, reborrow_refusal, retag_without_node};
ghost use Rattle.definition.proofs.Retags.{reads_refusal, reads_visit, settings_after_init};
ghost use Rattle.refusal.specs.Number.{refusal_of};
ghost use Rattle.refusal.specs.declared.Refusal.TheVariants.{NeverMade};
ghost use Rattle.pointer.specs.Pointer.{via, provenance_of, thin_pointer_of};
ghost use Rattle.answer.specs.Answer.{reply_to};
ghost use Rattle.answer.specs.Answer.Gives.{ThePointer};
ghost use Rattle.permission.specs.Codes.{protector, safe_pointer};
ghost use Rattle.tables.specs.Encoding.{protector_number};
ghost use Rattle.tables.specs.Held.{Records, Used, Trees, PlaceFor, with_node};
ghost use Rattle.bounds.specs.Bounds.{target_in, Points};
ghost use Rattle.retag.specs.Settings.{mask_of, settings_of, chosen_code, codes_for, inside_codes, place_in, child_at};
ghost use Rattle.parts.specs.Trees.{HoldsTrees, HoldsMarked, PartsOf, TreeAt, TreeVisited};
ghost use Rattle.retag.specs.Retag.{Located, bounds_refusal, Reached, after_reads, Fits, Passed, Tested, Added, Asked, answered, Retagged};

use answer::Answer;
use parts::Parts;
use permission::{AccessKind, NodeRelation, Protected, SafePointer};
use pointer::{Provenance, ThinPointer};
use refusal::Refusal;
use tables::{Allocation, NodePlace, Starts};

// The pointer that is made, the protector, and whether the bytes outside the pointee are freeze bytes.
#[derive(Clone, Copy)]
pub struct ReborrowSettings {
    pub pointer: SafePointer,
    pub protected: Protected,
    pub freeze: bool,
}

// ---- rows of codes

// A byte of a mask, 0 for a cell byte, to one of two codes.
fn chosen_code(byte: u8, freeze: u8, cell: u8) -> u8
    ensures { result ≡ chosen_code freeze cell byte }
{
    if byte == 0 { cell } else { freeze }
}

// The code that a byte inside starts with, as its read leaves it.
fn inside_code(pointer: SafePointer, protected: Protected, freeze: bool) -> u8
    ensures { result ≡ code (next Read Local (start_perm (safe_pointer pointer) (protector protected) freeze)) }
{
    let code = permission::start_code(pointer, protected, freeze);
    permission::next(code, AccessKind::Read, NodeRelation::Local)
}

// Each byte of a mask becomes that code.
fn inside_codes(mask: &mut [u8], pointer: SafePointer, protected: Protected)
    ensures { mask.new ≡ codes_for pointer protected (mask_of mask.old) }
{
    let freeze = inside_code(pointer, protected, true);
    let cell = inside_code(pointer, protected, false);
    for byte in mask.iter_mut() {
        *byte = chosen_code(*byte, freeze, cell);
    }
}

fn protector_number(protected: Protected) -> u8
    ensures { result ≡ protector_number (protector protected) }
{
    protected as u8
}

// ---- what is tested

// Where the inside bytes start in a row. Without bytes the pointer may lie outside the allocation.
fn place_in(address: u64, addr: u64, len: usize) -> usize
    requires { (len ≡ 0 → ⊥) → address ≤ addr }
    ensures { result ≡ place_in address addr len }
{
    if len == 0 {
        0
    } else {
        (addr - address) as usize
    }
}

// 14: a pointer without bytes lies below the allocation.
fn is_below_start(len: usize, addr: u64, address: u64) -> bool
    ensures { result ≡ (eqb len 0 && ltb addr address) }
{
    len == 0 && addr < address
}

// 15, for a frame that has so many entries.
fn exceeds_entries(protected: Protected, entries: usize) -> bool
    ensures { result ≡ (is_yes (protector protected) && ltb entry_bound (entries + 1)) }
{
    !matches!(protected, Protected::No) && entries >= 64
}

// 15, of a memory that uses so many nodes and codes: there is no room for a node of so many bytes.
fn exceeds_room(nodes: usize, codes: usize, bytes: usize) -> bool
    requires { (m : Memory) × (Valid m × Used m (sum_of size m) nodes codes) }
    ensures { (m : Memory) → Valid m → Used m (sum_of size m) nodes codes → result ≡ exceeds_bounds m (record { allocations = 0; words = 0; nodes = 1; codes = bytes }) }
{
    1024 - nodes < 1 || 32768 - codes < bytes
}

// 7 to 9, 14 and 15, of a pointer whose target was made and has this record.
fn bounds_refusal(
    a: Allocation,
    p: ThinPointer,
    len: usize,
    protected: Protected,
    entries: usize,
    used: Starts,
) -> Result<(), Refusal>
    requires size_bound { a.address + a.size < 2 ^ 64 }
    requires valid { (m : Memory) × (Valid m × Used m (sum_of size m) used.nodes used.codes) }
    ensures { (m : Memory) (A : List ℕ) (n node : ℕ) → p.provenance ≡ via n node → Points m A (provenance_of p.provenance)
        → a ≡ target_in A (provenance_of p.provenance) → Used m (sum_of size m) used.nodes used.codes
        → refusal_of result ≡ bounds_refusal (is_yes (protector protected)) entries len (thin_pointer_of p) m }
{
    bounds::check_ptr(a, p, 0, len as u64)?;
    if is_below_start(len, p.addr, a.address) {
        return Err(Refusal::BelowStart);
    }
    if exceeds_room(used.nodes, used.codes, a.size) || exceeds_entries(protected, entries) {
        return Err(Refusal::SizeExceeded);
    }
    Ok(())
}

// The reads of the inside bytes through a node of the tree at t: the first refusal, with the codes as they were, or none, with the reads made.
fn make_reads(
    parents: &[u16],
    codes: &mut [u8],
    inside: &[u8],
    t: Parts,
    node: usize,
    from: usize,
) -> Result<(), Refusal>
    requires { (m : Memory) × ((n : ℕ) × (TreeAt m n parents.now codes.old t × Reached m n node from (length inside.now))) }
    ensures { (m : Memory) (n : ℕ) → TreeAt m n parents.now codes.old t → Reached m n node from (length inside.now)
        → TreeVisited m n (reads_refusal node from (map permission inside.now) (allocation_at m n).nodes) (reads_visit node from (map permission inside.now)) (refusal_of result) codes.new }
{
    tree::make_reads(
        &parents[t.nodes.start..t.nodes.end],
        &mut codes[t.codes.start..t.codes.end],
        inside,
        t.width,
        node,
        from,
    )
}

// The node that is retagged: its allocation's number and its own there, the allocation's record and parts of the buffers, and how much is used.
#[derive(Clone, Copy)]
struct Parent {
    number: usize,
    node: usize,
    allocation: Allocation,
    parts: Parts,
    used: Starts,
}

// The one that a provenance names, or 4.
fn parent_of(allocs: &[u64], provenance: Provenance) -> Result<Parent, Refusal>
    requires records { (m : Memory) × Records m allocs.now }
    ensures found { IfOk result (λ parent. (parent.number ≡ provenance.allocation) × (parent.node ≡ provenance.node)
        × ((m : Memory) → Records m allocs.now → Located m allocs.now (provenance_of (Some provenance)) parent.number parent.allocation parent.used parent.parts)) }
    ensures never_made { IfErr result (λ refusal. (refusal ≡ NeverMade) × ((m : Memory) → Records m allocs.now → names_never_made m (provenance_of (Some provenance)) ≡ true)) }
{
    let a = bounds::target_of(allocs, Some(provenance));
    if bounds::never_made(a, Some(provenance)) {
        return Err(Refusal::NeverMade);
    }
    let number = provenance.allocation as usize;
    Ok(Parent {
        number,
        node: provenance.node as usize,
        allocation: a,
        parts: parts::parts_of(a),
        used: tables::used_behind(allocs, number),
    })
}

// All that a retag through a node is refused for; where it is for nothing, the reads are made.
fn retag_refusal(
    parent: Parent,
    parents: &[u16],
    codes: &mut [u8],
    inside: &[u8],
    settings: ReborrowSettings,
    p: ThinPointer,
    entries: usize,
) -> Result<(), Refusal>
    requires { (m : Memory) × ((A : List ℕ) × (HoldsTrees m A parents.now codes.old × Located m A (provenance_of p.provenance) parent.number parent.allocation parent.used parent.parts × (p.provenance ≡ via parent.number parent.node))) }
    ensures value { (s : State) (frame : ℕ) (mask : FreezeMask) (A : List ℕ) → HoldsTrees s.memory A parents.now codes.old
        → Located s.memory A (provenance_of p.provenance) parent.number parent.allocation parent.used parent.parts → p.provenance ≡ via parent.number parent.node
        → Asked s frame entries settings mask inside.now → refusal_of result ≡ reborrow_refusal (settings_of settings mask) frame (thin_pointer_of p) s }
    ensures tested { (m : Memory) (A : List ℕ) → HoldsTrees m A parents.now codes.old
        → Located m A (provenance_of p.provenance) parent.number parent.allocation parent.used parent.parts → p.provenance ≡ via parent.number parent.node
        → Tested m parent.number parent.node p.addr inside.now (refusal_of result) codes.new }
{
    let len = inside.len();
    bounds_refusal(
        parent.allocation,
        p,
        len,
        settings.protected,
        entries,
        parent.used,
    )?;
    let from = place_in(parent.allocation.address, p.addr, len);
    make_reads(parents, codes, inside, parent.parts, parent.node, from)
}

// ---- the child

// The child of a node of allocation n, of `bytes` bytes, as its reads leave it.
fn insert_child(
    allocs: &mut [u64],
    parents: &mut [u16],
    protectors: &mut [u8],
    codes: &mut [u8],
    inside: &[u8],
    settings: ReborrowSettings,
    n: usize,
    node: usize,
    from: usize,
    bytes: usize,
    place: NodePlace,
)
    requires holds_marked { (m : Memory) × (HoldsMarked m allocs.old parents.old protectors.old codes.old × Fits m n node from (length inside.now) × (bytes ≡ size (allocation_at m n))
        × PlaceFor m n place.nodes place.codes place.node place.code) }
    requires inside_value { (mask : FreezeMask) × (inside.now ≡ inside_codes settings mask) }
    ensures { (m : Memory) (mask : FreezeMask) → HoldsMarked m allocs.old parents.old protectors.old codes.old
        → Fits m n node from (length inside.now) → bytes ≡ size (allocation_at m n) → PlaceFor m n place.nodes place.codes place.node place.code
        → inside.now ≡ inside_codes settings mask
        → Trees (mutate_at n (with_node (child_at (settings_after_init (settings_of settings mask)) node from bytes)) m) allocs.new parents.new protectors.new codes.new }
{
    let outside = permission::start_code(settings.pointer, settings.protected, settings.freeze);
    let number = protector_number(settings.protected);
    tables::insert_node_at(
        allocs,
        parents,
        protectors,
        codes,
        n,
        place,
        node as u16,
        number,
        bytes,
        inside,
        outside,
        from,
    );
}

// Where a tree's next node goes.
fn node_place(used: Starts, t: Parts) -> NodePlace
    ensures { (m : Memory) (n : ℕ) → Valid m → Used m (sum_of size m) used.nodes used.codes → PartsOf m n t
        → PlaceFor m n result.nodes result.codes result.node result.code }
{
    NodePlace {
        nodes: used.nodes,
        codes: used.codes,
        node: t.nodes.end,
        code: t.codes.end,
    }
}

// The child of a node, in a memory in which its reads are made; m is the memory before them. Returns its number.
fn add_child(
    allocs: &mut [u64],
    parents: &mut [u16],
    protectors: &mut [u8],
    codes: &mut [u8],
    inside: &[u8],
    settings: ReborrowSettings,
    p: ThinPointer,
    parent: Parent,
) -> usize
    requires located { (m : Memory) × (Located m allocs.old (provenance_of p.provenance) parent.number parent.allocation parent.used parent.parts × Passed m parent.number parent.node p.addr (length inside.now) × Valid m
        × HoldsMarked (after_reads m parent.number parent.node p.addr inside.now) allocs.old parents.old protectors.old codes.old) }
    requires provenance_value { p.provenance ≡ via parent.number parent.node }
    requires inside_value { (mask : FreezeMask) × (inside.now ≡ inside_codes settings mask) }
    ensures { (m : Memory) (mask : FreezeMask) → Located m allocs.old (provenance_of p.provenance) parent.number parent.allocation parent.used parent.parts
        → Passed m parent.number parent.node p.addr (length inside.now) → Valid m
        → HoldsMarked (after_reads m parent.number parent.node p.addr inside.now) allocs.old parents.old protectors.old codes.old
        → inside.now ≡ inside_codes settings mask
        → Added (settings_of settings mask) (thin_pointer_of p) m parent.number result allocs.new parents.new protectors.new codes.new }
{
    let a = parent.allocation;
    let from = place_in(a.address, p.addr, inside.len());
    let place = node_place(parent.used, parent.parts);
    insert_child(
        allocs,
        parents,
        protectors,
        codes,
        inside,
        settings,
        parent.number,
        parent.node,
        from,
        a.size,
        place,
    );
    a.nodes
}

// ---- the requests

// A retag whose inside bytes have these codes: what its pointer then has, or why it is refused.
fn reborrow_inside(
    allocs: &mut [u64],
    parents: &mut [u16],
    protectors: &mut [u8],
    codes: &mut [u8],
    inside: &[u8],
    settings: ReborrowSettings,
    p: ThinPointer,
    entries: usize,
) -> Result<Option<Provenance>, Refusal>
    requires holds_marked { (m : Memory) × HoldsMarked m allocs.old parents.old protectors.old codes.old }
    requires inside_value { (mask : FreezeMask) × (inside.now ≡ inside_codes settings mask) }
    ensures { (s : State) (frame : ℕ) (mask : FreezeMask) → HoldsMarked s.memory allocs.old parents.old protectors.old codes.old
        → Asked s frame entries settings mask inside.now
        → Retagged (settings_of settings mask) frame (thin_pointer_of p) s (answered result) allocs.new parents.new protectors.new codes.new }
{
    let Some(provenance) = p.provenance else {
        if inside.is_empty() {
            return Ok(None);
        }
        return Err(Refusal::MissingProvenance);
    };
    let parent = parent_of(allocs, provenance)?;
    retag_refusal(parent, parents, codes, inside, settings, p, entries)?;
    let child = add_child(
        allocs, parents, protectors, codes, inside, settings, p, parent,
    );
    Ok(Some(Provenance {
        node: child as u32,
        ..provenance
    }))
}

// A retag of as many bytes as its mask has, for whose frame, under a protector, so many entries are known. The mask says of each byte whether it is a
// freeze byte; it is left with the bytes' codes.
pub fn reborrow(
    allocs: &mut [u64],
    parents: &mut [u16],
    protectors: &mut [u8],
    codes: &mut [u8],
    mask: &mut [u8],
    settings: ReborrowSettings,
    p: ThinPointer,
    entries: usize,
) -> Answer
    requires { (m : Memory) × HoldsMarked m allocs.old parents.old protectors.old codes.old }
    ensures retagged { (s : State) (frame : ℕ) → HoldsMarked s.memory allocs.old parents.old protectors.old codes.old
        → entries ≡ length (frames.entries (frame_at s frame))
        → Retagged (settings_of settings (mask_of mask.old)) frame (thin_pointer_of p) s result allocs.new parents.new protectors.new codes.new }
    ensures mask_after { mask.new ≡ inside_codes settings (mask_of mask.old) }
{
    inside_codes(mask, settings.pointer, settings.protected);
    match reborrow_inside(
        allocs, parents, protectors, codes, mask, settings, p, entries,
    ) {
        Ok(provenance) => Answer::Pointer(provenance),
        Err(refusal) => Answer::from(refusal),
    }
}

// A retag of a kind that adds no node: the same pointer, but for 4.
pub fn retag_without_node(allocs: &[u64], p: ThinPointer) -> Answer
    requires { (m : Memory) × Records m allocs.now }
    ensures { (s : State) → Records s.memory allocs.now → result ≡ reply_to ThePointer (retag_without_node (thin_pointer_of p) s).0 }
{
    let a = bounds::target_of(allocs, p.provenance);
    if bounds::never_made(a, p.provenance) {
        return Answer::from(Refusal::NeverMade);
    }
    Answer::Pointer(p.provenance)
}
