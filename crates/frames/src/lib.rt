#![tactic(auto)]

// A frame's protector list in its three forms: by value; lent as a slice of entry structs, which two functions read and extend; and in
// the buffer that holds a run's 32 frames. mem.rs: `TreeBorrowsFrameExtra`.
// specs/List.antt says what an entry and a list are in the definition, specs/Buffer.antt what the buffer holds.
ghost use Rattle.std.specs.Prelude.{◌+◌, ◌<◌, ◌≤◌, ◌≡◌, false, List, [], ◌∷◌, ◌++◌, length, get_or, take, set, replicate};
ghost use Rattle.definition.specs.Frame.{Frame, is_open, empty};
ghost use Rattle.definition.specs.Frame.Frame.{Closed, Open};
ghost use Rattle.definition.specs.Valid.{All};
ghost use Rattle.frames.specs.List.{provenance_of, no_entry, entries_of, loaded};
ghost use Rattle.frames.specs.Buffer.{entry_number, entry_in, entries_in, entries_at, FitsEntry, HoldsFrames};

// Whom a frame protects: a node of an allocation. It has C's layout, so that C and Rust can lend a list of them.
#[repr(C)]
#[derive(Clone, Copy)]
pub struct Entry {
    pub allocation: u32,
    pub node: u32,
}

// A list of entries by value: the first `count` of 64. An array with its length beside it, as there is no heap.
#[derive(Clone, Copy)]
pub struct Entries {
    pub list: [Entry; 64],
    pub count: usize,
}

// ---- by value
// The entry at a place of the list.
pub fn entry_at(entries: Entries, i: usize) -> Entry
    requires { (i < entries.count) × (entries.count ≤ 64) }
    ensures { (result ≡ get_or entries.list i no_entry) × (provenance_of result ≡ get_or (entries_of entries) i (provenance_of no_entry)) }
{
    entries.list[i]
}

// ---- lent: "The frame's protector list is lent as entries of allocation and node."
// The lent list by value: its entries, and none after them.
pub fn load(entries: &[Entry]) -> [Entry; 64]
    ensures { result ≡ loaded entries.now }
{
    let mut list = [Entry {
        allocation: 0,
        node: 0,
    }; 64];
    let count = entries.len().min(64);
    list[..count].copy_from_slice(&entries[..count]);
    list
}

// An entry is put into the lent list; past its end nothing is.
pub fn put_if(entries: &mut [Entry], i: usize, e: Entry)
    ensures { entries.new ≡ set entries.old i e }
{
    // By `get_mut` the proof did not close: nothing is known of a slice's elements once that borrow is over.
    if i < entries.len() {
        entries[i] = e;
    }
}

// ---- the frames of a run, in one buffer (specs/Buffer.antt). Frame f has the 65 numbers from f * 65 on.
// `HoldsFrames` stays a clause of each: callers lend the buffer as a slice, and these public signatures may not change.
// An entry as one number.
fn entry_number(e: Entry) -> u32
    requires { FitsEntry (provenance_of e) }
    ensures { result ≡ entry_number (provenance_of e) }
{
    e.allocation * 4096 + e.node
}

// The entry that a number stands for. `end_call` has it by this name and clause, so it stays a function and no `From`.
pub fn entry_in(number: u32) -> Entry
    ensures { result ≡ entry_in number }
{
    Entry {
        allocation: number / 4096,
        node: number % 4096,
    }
}

// The entries of a list, each as its number, and zeros after them.
pub fn numbers_of(list: Entries) -> [u32; 64]
    requires { (list.count ≤ 64) × All FitsEntry (entries_of list) }
    ensures { entries_in (take list.count result) ≡ entries_of list }
{
    let mut numbers = [0; 64];
    for i in 0..list.count {
        numbers[i] = entry_number(entry_at(list, i));
    }
    numbers
}

// Zeros at every place.
pub fn fill_zero(part: &mut [u32])
    ensures { part.new ≡ replicate (length part.old) 0 }
{
    part.fill(0);
}

// No frame is open.
pub fn clear(frames: &mut [u32])
    requires { length frames.old ≡ 2080 }
    ensures { HoldsFrames empty.frames frames.new }
{
    fill_zero(frames);
}

// A frame is open.
pub fn is_open(frames: &[u32], f: usize) -> bool
    requires holds_frames { (fs : List Frame) × HoldsFrames fs frames.now }
    requires f_bound { f < 32 }
    ensures { (fs : List Frame) → HoldsFrames fs frames.now → result ≡ is_open (get_or fs f Closed) }
{
    frames[f * 65] != 0
}

// How many entries a frame has; a closed one has none.
pub fn entry_count(frames: &[u32], f: usize) -> usize
    requires holds_frames { (fs : List Frame) × HoldsFrames fs frames.now }
    requires f_bound { f < 32 }
    ensures { (fs : List Frame) → HoldsFrames fs frames.now → result ≡ length (entries_at fs f) }
{
    frames[f * 65].saturating_sub(1) as usize
}

// The numbers of a frame's entries.
pub fn frame_numbers(frames: &[u32], f: usize) -> &[u32]
    requires holds_frames { (fs : List Frame) × HoldsFrames fs frames.now }
    requires f_bound { f < 32 }
    ensures { (fs : List Frame) → HoldsFrames fs frames.now → entries_in result.now ≡ entries_at fs f }
{
    let start = f * 65 + 1;
    let end = start + entry_count(frames, f);
    &frames[start..end]
}

// A closed frame is opened, without entries.
pub fn open_frame(frames: &mut [u32], f: usize)
    requires holds_frames { (fs : List Frame) × (HoldsFrames fs frames.old × (is_open (get_or fs f Closed) ≡ false)) }
    requires f_bound { f < 32 }
    ensures { (fs : List Frame) → HoldsFrames fs frames.old → HoldsFrames (set fs f (Open [])) frames.new }
{
    frames[f * 65] = 1;
}

// A frame is closed: zeros in its part, which has zeros behind its entries already.
pub fn close_frame(frames: &mut [u32], f: usize)
    requires holds_frames { (fs : List Frame) × HoldsFrames fs frames.old }
    requires f_bound { f < 32 }
    ensures { (fs : List Frame) → HoldsFrames fs frames.old → HoldsFrames (set fs f Closed) frames.new }
{
    let count = entry_count(frames, f);
    let start = f * 65;
    let end = start + 1 + count;
    fill_zero(&mut frames[start..end]);
}

// A frame gets one entry more, at the end of its list.
pub fn push_entry(frames: &mut [u32], f: usize, e: Entry)
    requires holds_frames { (fs : List Frame) × (HoldsFrames fs frames.old × (length (entries_at fs f) < 64)) }
    requires f_bound { (f < 32) × FitsEntry (provenance_of e) }
    ensures { (fs : List Frame) → HoldsFrames fs frames.old → HoldsFrames (set fs f (Open (entries_at fs f ++ (provenance_of e ∷ [])))) frames.new }
{
    let count = entry_count(frames, f);
    let number = entry_number(e);
    let at = f * 65;
    frames[at] = count as u32 + 2;
    frames[at + 1 + count] = number;
}
