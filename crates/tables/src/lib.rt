#![tactic(auto)]

// How five lent buffers hold a memory: looking an allocation up, making one, giving it a node.
//
// `allocs` has nine numbers for each allocation: state (0 never made, 1 live, 2 dead), kind, alignment exponent, address,
// size, number of nodes, first word, first node, first code. `parents` and `protectors` have a number for each node, `words` one
// for each byte, `codes` a row of `size` codes for each node. Each is contiguous by allocation, and zero behind the last.
ghost use Rattle.std.specs.Prelude.{◌≡◌, List, ◌∷◌, [], ◌++◌, ℕ, ◌+◌, ◌-◌, ◌*◌, ◌<◌, ◌≤◌, length, get_or, take, drop, replicate};
ghost use Rattle.std.proofs.Math.Seq.{paste};
ghost use Rattle.definition.specs.Notation.{mutate_at, write_at};
ghost use Rattle.definition.specs.Tree.{Node};
ghost use Rattle.definition.specs.Memory.{Memory, AllocationKind, kind_number, is_misaligned, ranges_overlap, new_allocation};
ghost use Rattle.tables.specs.declared.Starts.{Starts};
ghost use Rattle.tables.specs.Encoding.{records_from};
ghost use Rattle.tables.specs.Decoding.{made_in};
ghost use Rattle.tables.specs.Held.{inserted, ZerosFrom, with_node, Records, StartsAt, Used, AllocationFits, Appended, moved_starts, RecordsBehind, NodeFits, PlaceFor, Trees};

// Where the parts of an allocation start: in `words`, in `parents` and `protectors`, in `codes`.
#[derive(Clone, Copy)]
pub struct Starts {
    pub words: usize,
    pub nodes: usize,
    pub codes: usize,
}

// The state of an allocation, by its number in the record.
#[derive(Clone, Copy)]
pub enum State {
    NeverMade = 0,
    Live = 1,
    Dead = 2,
}

// The kind of an allocation, by its number in the record.
#[derive(Clone, Copy)]
pub enum Kind {
    Stack = 0,
    Heap = 1,
    Global = 2,
    Function = 3,
    VTable = 4,
}

// An allocation's record. State and kind are numbers here as in the buffer: the clause of `allocation_at` says so.
#[derive(Clone, Copy)]
pub struct Allocation {
    pub state: u64,
    pub kind: u64,
    pub exponent: u64,
    pub address: u64,
    pub size: usize,
    pub nodes: usize,
    pub starts: Starts,
}

pub fn allocation_at(allocs: &[u64], a: usize) -> Allocation
    requires { a * 9 + 9 ≤ length allocs.now }
    ensures { result ≡ record {
      state = get_or allocs.now (a * 9) 0;
      kind = get_or allocs.now (a * 9 + 1) 0;
      exponent = get_or allocs.now (a * 9 + 2) 0;
      address = get_or allocs.now (a * 9 + 3) 0;
      size = get_or allocs.now (a * 9 + 4) 0;
      nodes = get_or allocs.now (a * 9 + 5) 0;
      starts = record {
        words = get_or allocs.now (a * 9 + 6) 0;
        nodes = get_or allocs.now (a * 9 + 7) 0;
        codes = get_or allocs.now (a * 9 + 8) 0;
      };
    } }
{
    let p = a * 9;
    Allocation {
        state: allocs[p],
        kind: allocs[p + 1],
        exponent: allocs[p + 2],
        address: allocs[p + 3],
        size: allocs[p + 4] as usize,
        nodes: allocs[p + 5] as usize,
        starts: Starts {
            words: allocs[p + 6] as usize,
            nodes: allocs[p + 7] as usize,
            codes: allocs[p + 8] as usize,
        },
    }
}

// The first record from `from` on of an allocation that was never made, or 128.
fn first_unmade(allocs: &[u64], from: usize) -> usize
    requires { (length allocs.now ≡ 1152) × (from ≤ 128) }
    ensures { result ≡ from + made_in (128 - from) (drop (from * 9) allocs.now) }
{
    for i in from..128 {
        if allocs[i * 9] == State::NeverMade as u64 {
            return i;
        }
    }
    128
}

// How many allocations were made.
pub fn made_count(allocs: &[u64]) -> usize
    requires { length allocs.now ≡ 1152 }
    ensures { result ≡ made_in 128 allocs.now }
{
    first_unmade(allocs, 0)
}

// Where the parts of allocation a start, which may be the next one to be made: where those of the one before it end.
pub fn starts_at(allocs: &[u64], a: usize) -> Starts
    requires { (m : Memory) × (Records m allocs.now × (a ≤ length m)) }
    ensures { (m : Memory) → Records m allocs.now → StartsAt m a result.words result.nodes result.codes }
{
    if a == 0 {
        return Starts {
            words: 0,
            nodes: 0,
            codes: 0,
        };
    }
    let x = allocation_at(allocs, a - 1);
    Starts {
        words: x.starts.words + x.size,
        nodes: x.starts.nodes + x.nodes,
        codes: x.starts.codes + x.nodes * x.size,
    }
}

// How much of the buffers is used, by the living and the dead: where the parts of the first allocation behind a that was never made start.
pub fn used_behind(allocs: &[u64], a: usize) -> Starts
    requires { (m : Memory) × (Records m allocs.now × (a < length m)) }
    ensures { (m : Memory) → Records m allocs.now → Used m result.words result.nodes result.codes }
{
    starts_at(allocs, first_unmade(allocs, a + 1))
}

// ---- addresses
// `overlaps`, of two ranges: "Touching ranges don't overlap unless they start equal, even at size 0."
pub fn ranges_overlap(address: u64, len: u64, other: u64, span: u64) -> bool
    ensures { result ≡ ranges_overlap address len other span }
{
    if address < other {
        len > other - address
    } else if address > other {
        span > address - other
    } else {
        true
    }
}

// The address is no multiple of the alignment, 2 to the exponent.
pub fn is_misaligned(address: u64, exponent: u64) -> bool
    requires { exponent < 64 }
    ensures { result ≡ is_misaligned address exponent }
{
    let alignment = 1u64 << exponent;
    address % alignment != 0
}

// ---- tables
// Moves what is at p and behind up by w; the last w go.
fn shift_right<T: Copy>(c: &mut [T], p: usize, w: usize)
    requires { p + w ≤ length c.old }
    ensures { c.new ≡ take (p + w) c.old ++ take (length c.old - (p + w)) (drop p c.old) }
{
    let end = c.len() - w;
    c.copy_within(p..end, p + w);
}

// Copies src to the front of dst, element by element: the library's copy, of which the compiler does not see that the two lie apart, makes the
// archive for C ask for `memmove`.
pub fn copy_row<T: Copy>(dst: &mut [T], src: &[T])
    requires { length src.now ≤ length dst.old }
    ensures { dst.new ≡ src.now ++ drop (length src.now) dst.old }
{
    for i in 0..src.len() {
        dst[i] = src[i];
    }
}

// Puts row in at p: what is there and behind moves up.
fn insert_row<T: Copy>(c: &mut [T], p: usize, row: &[T])
    requires { p + length row.now ≤ length c.old }
    ensures { c.new ≡ inserted c.old p row.now }
{
    shift_right(c, p, row.len());
    c[p..p + row.len()].copy_from_slice(row);
}

// A row: `inside` from `from` on, `outside` at all other places.
fn make_row(row: &mut [u8], inside: &[u8], outside: u8, from: usize)
    requires { from + length inside.now ≤ length row.old }
    ensures { row.new ≡ write_at from inside.now (replicate (length row.old) outside) }
{
    let end = from + inside.len();
    row[..from].fill(outside);
    copy_row(&mut row[from..end], inside);
    row[end..].fill(outside);
}

// Puts such a row in at p, of `width`, and makes it there.
fn insert_made_row(c: &mut [u8], p: usize, width: usize, inside: &[u8], outside: u8, from: usize)
    requires width_in_bounds { p + width ≤ length c.old }
    requires inside_bound { from + length inside.now ≤ width }
    ensures { c.new ≡ inserted c.old p (write_at from inside.now (replicate width outside)) }
{
    shift_right(c, p, width);
    make_row(&mut c[p..p + width], inside, outside, from);
}

// Writes a record at p.
fn put_record(allocs: &mut [u64], p: usize, x: Allocation)
    requires { p + 9 ≤ length allocs.old }
    ensures { allocs.new
        ≡ paste allocs.old p (x.state ∷ x.kind ∷ x.exponent ∷ x.address ∷ x.size ∷ x.nodes ∷ x.starts.words ∷ x.starts.nodes ∷ x.starts.codes ∷ []) 9 }
{
    allocs[p..p + 9].copy_from_slice(&[
        x.state,
        x.kind,
        x.exponent,
        x.address,
        x.size as u64,
        x.nodes as u64,
        x.starts.words as u64,
        x.starts.nodes as u64,
        x.starts.codes as u64,
    ]);
}

// Makes an allocation behind the others, and returns its number. Its words are uninitialised, its root has parent 0 and no
// protector: these are zeros, which stand there already.
pub fn append_allocation(
    allocs: &mut [u64],
    codes: &mut [u8],
    kind: u64,
    exponent: u64,
    address: u64,
    size: usize,
) -> usize
    requires { (m : Memory) × AllocationFits m allocs.old codes.old size }
    ensures { (m : Memory) (k : AllocationKind) → AllocationFits m allocs.old codes.old size → kind ≡ kind_number k
        → Appended m (new_allocation k size exponent address) result allocs.new codes.new }
{
    let n = made_count(allocs);
    let starts = starts_at(allocs, n);
    let live = Allocation {
        state: State::Live as u64,
        kind,
        exponent,
        address,
        size,
        nodes: 1,
        starts,
    };
    put_record(allocs, n * 9, live);
    codes[starts.codes..starts.codes + size].fill(3);
    n
}

// The nodes of allocation k and of those behind it start one later, and their codes `width` later: a node was put in before them.
fn move_starts(allocs: &mut [u64], k: usize, width: usize)
    requires { (l : List ℕ) × ((p : Starts) × ((m : Memory) × ((z : ℕ) × RecordsBehind k l p m z width allocs.old))) }
    ensures { (l : List ℕ) (p : Starts) (m : Memory) (z : ℕ) → RecordsBehind k l p m z width allocs.old
        → allocs.new ≡ l ++ (records_from (moved_starts width p) m ++ replicate z 0) }
{
    for i in k..128 {
        let p = i * 9;
        if allocs[p] == State::NeverMade as u64 {
            return;
        }
        allocs[p + 7] += 1;
        allocs[p + 8] += width as u64;
    }
}

// How many nodes and codes are used, and where among them a node goes, and its row.
#[derive(Clone, Copy)]
pub struct NodePlace {
    pub nodes: usize,
    pub codes: usize,
    pub node: usize,
    pub code: usize,
}

// Gives allocation a a node behind its others, at a place that is known, with its parent, its protector's number and its row of `width` codes:
// `inside` from `from` on, `outside` at all other places.
pub fn insert_node_at(
    allocs: &mut [u64],
    parents: &mut [u16],
    protectors: &mut [u8],
    codes: &mut [u8],
    a: usize,
    place: NodePlace,
    parent: u16,
    protector: u8,
    width: usize,
    inside: &[u8],
    outside: u8,
    from: usize,
)
    requires node_fits { (m : Memory) × ((x : Node) × (
        NodeFits m a x allocs.old parents.old protectors.old codes.old parent protector (write_at from inside.now (replicate width outside))
        × PlaceFor m a place.nodes place.codes place.node place.code)) }
    requires inside_bound { from + length inside.now ≤ width }
    ensures { (m : Memory) (x : Node)
        → NodeFits m a x allocs.old parents.old protectors.old codes.old parent protector
        (write_at from inside.now (replicate width outside))
        → PlaceFor m a place.nodes place.codes place.node place.code
        → Trees (mutate_at a (with_node x) m) allocs.new parents.new protectors.new codes.new }
{
    // Zeros stand behind what is used of a table: only that moves.
    insert_row(&mut parents[..place.nodes + 1], place.node, &[parent]);
    insert_row(&mut protectors[..place.nodes + 1], place.node, &[protector]);
    insert_made_row(
        &mut codes[..place.codes + width],
        place.code,
        width,
        inside,
        outside,
        from,
    );
    allocs[a * 9 + 5] += 1;
    move_starts(allocs, a + 1, width);
}
