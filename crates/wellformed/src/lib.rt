#![tactic(auto)]

// Whether five lent buffers hold a memory (refusal 1): one pass over what is used, one over the rest, and pairs of allocations.
// The buffers come one by one, as in `library`: a struct would be made anew for each test that looks behind the front of all five.
pub mod at_width;

ghost use Rattle.std.specs.Prelude.{◌≡◌, ◌+◌, ◌-◌, ◌*◌, ◌<◌, ◌≤◌, not, ◌||◌, length, get_or, drop};
ghost use Rattle.definition.specs.Notation.{any};
ghost use Rattle.tables.specs.Held.{buffers};
ghost use Rattle.wellformed.specs.WellFormed.{bad_record, bad_place, bad_code, bad_nodes, Nodes, bad_allocation, bad_allocation_at, Front, bad_rest, bad_allocations, clashes, clashes_first, any_clash, well_formed, Decides};

// ---- something other than zero
// Every number is looked at, with no way out of the loop, as `any` has one: several are tested at a time.
fn any_other<T: Copy + PartialEq>(numbers: &[T], zero: T) -> bool
    ensures { result ≡ any (λ n. not (T.eq n zero)) numbers.now }
{
    let mut found = false;
    for &n in numbers {
        found |= n != zero;
    }
    found
}

// Behind the last allocation.
#[tactic(auto, unfolding(crate::specs::WellFormed::bad_rest))]
fn bad_rest(allocs: &[u64], parents: &[u16], protectors: &[u8], words: &[u32], codes: &[u8]) -> bool
    ensures { result ≡ bad_rest allocs.now parents.now protectors.now words.now codes.now }
{
    any_other(allocs, 0)
        || any_other(parents, 0)
        || any_other(protectors, 0)
        || any_other(words, 0)
        || any_other(codes, 0)
}

// ---- nodes
#[tactic(auto, unfolding(crate::specs::WellFormed::bad_place))]
fn bad_place(n: usize, parent: usize, protector: u8) -> bool
    ensures { result ≡ bad_place n parent protector }
{
    if n == 0 {
        parent != 0 || protector != 0
    } else {
        n <= parent || protector > 2
    }
}

// Codes 6 to e are the protected ones.
#[tactic(auto, unfolding(crate::specs::WellFormed::bad_code))]
fn bad_code(live: bool, protector: u8, code: u8) -> bool
    ensures { result ≡ bad_code live protector code }
{
    code > 14 || live && (if protector == 0 { code > 5 } else { code < 6 })
}

fn any_bad_code(live: bool, protector: u8, row: &[u8]) -> bool
    ensures { result ≡ any (bad_code live protector) row.now }
{
    let mut bad = false;
    for &code in row {
        bad |= bad_code(live, protector, code);
    }
    bad
}

fn bad_node(live: bool, n: usize, parent: usize, protector: u8, row: &[u8]) -> bool
    ensures { result ≡ bad_place n parent protector || any (bad_code live protector) row.now }
{
    bad_place(n, parent, protector) || any_bad_code(live, protector, row)
}

// The first `count` nodes, with rows of `size` codes.
fn bad_nodes(
    live: bool,
    size: usize,
    count: usize,
    parents: &[u16],
    protectors: &[u8],
    codes: &[u8],
) -> bool
    requires { Nodes count size parents.now protectors.now codes.now }
    ensures { result ≡ bad_nodes live size 0 count parents.now protectors.now codes.now }
{
    for n in 0..count {
        let row = &codes[n * size..n * size + size];
        if bad_node(live, n, parents[n] as usize, protectors[n], row) {
            return true;
        }
    }
    false
}

// ---- one allocation
#[tactic(auto, unfolding(crate::specs::WellFormed::bad_record))]
fn bad_record(state: u64, kind: u64, exponent: u64, address: u64, size: u64, nodes: u64) -> bool
    ensures { result ≡ bad_record state kind exponent address size nodes }
{
    state == 0
        || state > 2
        || kind > 4
        || exponent > 29
        || address == 0
        || tables::is_misaligned(address, exponent)
        // how far it is to 2^64
        || size >= u64::MAX - (address - 1)
        || nodes == 0
}

// The allocation at the front of the five lists.
#[tactic(auto, using(crate::proofs::Numbers::words_bad), unfolding(crate::specs::WellFormed::bad_allocation))]
fn bad_allocation(
    allocs: &[u64],
    parents: &[u16],
    protectors: &[u8],
    words: &[u32],
    codes: &[u8],
) -> bool
    requires { Front allocs.now parents.now words.now }
    ensures { result ≡ bad_allocation allocs.now parents.now protectors.now words.now codes.now }
{
    let state = allocs[0];
    let size = allocs[4];
    let nodes = allocs[5];
    if bad_record(state, allocs[1], allocs[2], allocs[3], size, nodes) {
        return true;
    }
    let size = size as usize;
    let count = nodes as usize;
    if count > parents.len()
        || count > protectors.len()
        || size > words.len()
        || count * size > codes.len()
    {
        return true;
    }
    pointer::any_bad_byte(&words[..size])
        || bad_nodes(state == 1, size, count, parents, protectors, codes)
}

// Where the parts of an allocation start in the buffers: those of the one before end there.
#[derive(Clone, Copy, PartialEq, Eq)]
struct Starts {
    word: usize,
    node: usize,
    code: usize,
}

// Where the record at the front says so.
fn starts_of(allocs: &[u64]) -> Starts
    requires { 9 ≤ length allocs.now }
    ensures { result ≡ record { word = get_or allocs.now 6 0; node = get_or allocs.now 7 0; code = get_or allocs.now 8 0 } }
{
    Starts {
        word: allocs[6] as usize,
        node: allocs[7] as usize,
        code: allocs[8] as usize,
    }
}

#[tactic(auto, unfolding(crate::specs::WellFormed::bad_allocation_at, crate::specs::WellFormed::bad_starts))]
fn bad_allocation_at(
    allocs: &[u64],
    parents: &[u16],
    protectors: &[u8],
    words: &[u32],
    codes: &[u8],
    at: Starts,
) -> bool
    requires { Front allocs.now parents.now words.now }
    ensures { result
        ≡ bad_allocation_at at.word at.node at.code allocs.now parents.now protectors.now words.now codes.now }
{
    starts_of(allocs) != at || bad_allocation(allocs, parents, protectors, words, codes)
}

// ---- all of them, and zeros behind
fn bad_allocations(
    allocs: &[u64],
    parents: &[u16],
    protectors: &[u8],
    words: &[u32],
    codes: &[u8],
    count: usize,
) -> bool
    requires { (count * 9 ≤ length allocs.now) × ((length parents.now ≤ 1024) × (length words.now ≤ 4096)) }
    ensures { result ≡ bad_allocations count 0 0 0 allocs.now parents.now protectors.now words.now codes.now }
{
    let mut at = Starts {
        word: 0,
        node: 0,
        code: 0,
    };
    for i in 0..count {
        let p = i * 9;
        if bad_allocation_at(
            &allocs[p..],
            &parents[at.node..],
            &protectors[at.node..],
            &words[at.word..],
            &codes[at.code..],
            at,
        ) {
            return true;
        }
        let size = allocs[p + 4] as usize;
        let nodes = allocs[p + 5] as usize;
        at.word += size;
        at.node += nodes;
        at.code += nodes * size;
    }
    bad_rest(
        &allocs[count * 9..],
        &parents[at.node..],
        &protectors[at.node..],
        &words[at.word..],
        &codes[at.code..],
    )
}

// ---- pairs
// Allocation j is live and overlaps the range.
fn clashes_at(allocs: &[u64], j: usize, address: u64, size: u64) -> bool
    requires { j * 9 + 9 ≤ length allocs.now }
    ensures { result ≡ clashes address size (drop (j * 9) allocs.now) }
{
    let p = j * 9;
    allocs[p] == 1 && tables::ranges_overlap(address, size, allocs[p + 3], allocs[p + 4])
}

// Allocation i is live and overlaps a later one of `count`.
fn clashes_later(allocs: &[u64], i: usize, count: usize) -> bool
    requires { (i < count) × (count * 9 ≤ length allocs.now) }
    ensures { result ≡ clashes_first (count - (i + 1)) (drop (i * 9) allocs.now) }
{
    let p = i * 9;
    if allocs[p] != 1 {
        return false;
    }
    let address = allocs[p + 3];
    let size = allocs[p + 4];
    for j in i + 1..count {
        if clashes_at(allocs, j, address, size) {
            return true;
        }
    }
    false
}

fn any_clash(allocs: &[u64], count: usize) -> bool
    requires { count * 9 ≤ length allocs.now }
    ensures { result ≡ any_clash count allocs.now }
{
    for i in 0..count {
        if clashes_later(allocs, i, count) {
            return true;
        }
    }
    false
}

// ---- the test
pub fn well_formed(
    allocs: &[u64],
    parents: &[u16],
    protectors: &[u8],
    words: &[u32],
    codes: &[u8],
) -> bool
    ensures test { result ≡ well_formed (buffers allocs.now parents.now protectors.now words.now codes.now) }
    ensures exact { Decides result (buffers allocs.now parents.now protectors.now words.now codes.now) }
{
    if allocs.len() != 1152
        || parents.len() != 1024
        || protectors.len() != 1024
        || words.len() != 4096
        || codes.len() != 32768
    {
        return false;
    }
    let count = tables::made_count(allocs);
    !any_clash(allocs, count) && !bad_allocations(allocs, parents, protectors, words, codes, count)
}
