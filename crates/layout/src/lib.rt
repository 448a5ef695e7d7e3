#![tactic(auto)]

// A retag's layout words, to a freeze mask. mem.rs: `UnsafeCellStrategy::freeze_mask`, `cells_to_freeze_mask`.
// A mask is filled into a lent buffer: 1 for a freeze byte, 0 for a cell byte (specs/Filled.antt).
ghost use Rattle.std.specs.Prelude.{◌≡◌, map, ◌%◌, ◌≤◌, ◌<◌, length, get_or, replicate};
ghost use Rattle.definition.specs.Notation.{table, write_at};
ghost use Rattle.definition.specs.Layout.{unsafe_cell, cells_fit, is_freeze, header, pointer_meta, sized_mask, slice_mask, trait_object_mask, tuple_mask, nested_mask};
ghost use Rattle.layout.specs.Filled.{header_of, meta_of, cell_of, layout_of, has_cells, mask_bytes, Fills, elements_mask, last_mask, tail_mask, answered, afterwards};

// Why no mask is filled.
#[derive(Clone, Copy, PartialEq, Eq)]
pub enum MaskError {
    // the words have none
    NoMask,
    // the lent buffer is not 4,096 bytes long
    WrongLength,
}

// ---- words to their fields
#[derive(Clone, Copy)]
enum LayoutStrategy {
    Sized,
    Slice,
    TraitObject,
    Tuple,
}

#[derive(Clone, Copy)]
struct Header {
    layout: LayoutStrategy,
    cells: u32,
    size: u32,
}

// The definition's three cases by their names: as an Option of two, one word of metadata would be said in two steps.
#[derive(Clone, Copy)]
enum PointerMeta {
    NoMetadata,
    ElementCount(u32),
    VTablePointer,
}

// Where a cell is: "each cell is offset (16), size (16)".
#[derive(Clone, Copy)]
struct UnsafeCell {
    offset: usize,
    size: usize,
}

impl From<u32> for LayoutStrategy {
    ghost from_gives = { λ word layout. layout_of layout ≡ (header word).layout };

    fn from(word: u32) -> Self {
        match word >> 30 {
            0 => LayoutStrategy::Sized,
            1 => LayoutStrategy::Slice,
            2 => LayoutStrategy::TraitObject,
            _ => LayoutStrategy::Tuple,
        }
    }
}

impl From<u32> for Header {
    ghost from_gives = { λ word head. header_of head ≡ header word };

    fn from(word: u32) -> Self {
        Header {
            layout: LayoutStrategy::from(word),
            cells: (word >> 22) % 0x100,
            size: word % 0x40_0000,
        }
    }
}

impl From<u32> for PointerMeta {
    ghost from_gives = { λ word metadata. meta_of metadata ≡ pointer_meta word };

    fn from(word: u32) -> Self {
        match word >> 30 {
            1 => PointerMeta::ElementCount(word % 0x4000_0000),
            2 => PointerMeta::VTablePointer,
            _ => PointerMeta::NoMetadata,
        }
    }
}

impl From<u32> for UnsafeCell {
    ghost from_gives = { λ word cell. cell_of cell ≡ unsafe_cell word };

    fn from(word: u32) -> Self {
        UnsafeCell {
            offset: (word >> 16) as usize,
            size: (word % 0x1_0000) as usize,
        }
    }
}

// ---- cells
// "Cells must come in order, not overlap and end within the size".
fn cells_fit(cells: &[u32], size: usize) -> bool
    ensures { result ≡ cells_fit 0 size (map unsafe_cell cells.now) }
{
    let mut end = 0;
    for &word in cells {
        let cell = UnsafeCell::from(word);
        if cell.offset < end {
            return false;
        }
        end = cell.offset + cell.size;
    }
    end <= size
}

// ---- filling
// The bytes of the cell of a word are cleared, as far as the mask goes.
fn clear_cell(mask: &mut [u8], word: u32)
    ensures { mask.new ≡ write_at (unsafe_cell word).offset (replicate (unsafe_cell word).size 0) mask.old }
{
    let cell = UnsafeCell::from(word);
    let start = cell.offset.min(mask.len());
    let end = (start + cell.size).min(mask.len());
    mask[start..end].fill(0);
}

// Converts a list of cell locations into a freeze mask, which fills the whole of `mask`.
fn cells_to_freeze_mask(cells: &[u32], mask: &mut [u8])
    ensures { mask.new ≡ mask_bytes (table (length mask.old) (is_freeze (map unsafe_cell cells.now))) }
{
    mask.fill(1);
    for &word in cells {
        clear_cell(mask, word);
    }
}

// The first `size` bytes, repeated to the end.
fn repeat(mask: &mut [u8], size: usize)
    requires { 0 < size }
    ensures { mask.new ≡ table (length mask.old) (λ b. get_or mask.old (b % size) 0) }
{
    for i in size..mask.len() {
        mask[i] = mask[i - size];
    }
}

// ---- masks: what is wanted, if `mask` has room for it; else nothing is written
// That `mask` has at most 4,096 bytes stays a clause of each: a tuple lends a part on, and a type that says so would be made anew for each part.
fn fill_sized(cells: &[u32], size: usize, mask: &mut [u8]) -> Option<usize>
    requires { length mask.old ≤ 4096 }
    ensures { Fills (sized_mask size (map unsafe_cell cells.now)) mask.old result mask.new }
{
    if mask.len() < size {
        return None;
    }
    cells_to_freeze_mask(cells, &mut mask[..size]);
    Some(size)
}

// "Slices repeat by the count": one element is filled, and then repeated. Without bytes there is no loop over the count.
fn fill_elements(cells: &[u32], size: u32, count: u32, mask: &mut [u8]) -> Option<usize>
    requires { length mask.old ≤ 4096 }
    ensures { Fills (elements_mask count size (map unsafe_cell cells.now)) mask.old result mask.new }
{
    let element = size as usize;
    let total = count as usize * element;
    if mask.len() < total {
        return None;
    }
    if total == 0 {
        return Some(0);
    }
    cells_to_freeze_mask(cells, &mut mask[..element]);
    repeat(&mut mask[..total], element);
    Some(total)
}

fn fill_slice(metadata: PointerMeta, cells: &[u32], size: u32, mask: &mut [u8]) -> Option<usize>
    requires { length mask.old ≤ 4096 }
    ensures { Fills (slice_mask (meta_of metadata) size (map unsafe_cell cells.now)) mask.old result mask.new }
{
    match metadata {
        PointerMeta::ElementCount(count) => fill_elements(cells, size, count, mask),
        _ => None, // "a slice without an element count"
    }
}

fn fill_trait_object(
    metadata: PointerMeta,
    cells: &[u32],
    size: u32,
    mask: &mut [u8],
) -> Option<usize>
    requires { length mask.old ≤ 4096 }
    ensures { Fills (trait_object_mask (meta_of metadata) size (map unsafe_cell cells.now)) mask.old result mask.new }
{
    match metadata {
        PointerMeta::VTablePointer => fill_sized(cells, size as usize, mask),
        _ => None, // "a trait object without vtable metadata"
    }
}

// A header that is no tuple's, from the words behind it: its cells, and none left over.
fn fill_last(head: Header, metadata: PointerMeta, words: &[u32], mask: &mut [u8]) -> Option<usize>
    requires { length mask.old ≤ 4096 }
    ensures { Fills (last_mask (header_of head) (meta_of metadata) words.now) mask.old result mask.new }
{
    if (head.cells as usize) < words.len() {
        return None;
    }
    match head.layout {
        LayoutStrategy::Sized => fill_sized(words, head.size as usize, mask),
        LayoutStrategy::Slice => fill_slice(metadata, words, head.size, mask),
        LayoutStrategy::TraitObject => fill_trait_object(metadata, words, head.size, mask),
        LayoutStrategy::Tuple => None, // not asked: `fill_layout` has taken it
    }
}

// The words start with so many cells, and these fit.
fn has_cells(words: &[u32], cells: usize, size: usize) -> bool
    ensures { result ≡ has_cells cells size words.now }
{
    words.len() >= cells && cells_fit(&words[..cells], size)
}

// "a tuple's mask is its head's, and the tail's part directly after it": that part of the buffer is lent on. The tail comes first,
// so that nothing is written where it has no mask.
#[cycle(fill_layout_fill_tuple)]
fn fill_tuple(
    cells: &[u32],
    size: usize,
    tail: &[u32],
    metadata: PointerMeta,
    tuples: usize,
    mask: &mut [u8],
) -> Option<usize>
    requires { length mask.old ≤ 4096 }
    ensures { Fills (tuple_mask (sized_mask size (map unsafe_cell cells.now)) (tail_mask tuples (meta_of metadata) tail.now)) mask.old result mask.new }
{
    if tuples == 0 || mask.len() < size {
        return None;
    }
    let len = fill_layout(tail, metadata, tuples - 1, &mut mask[size..])?;
    cells_to_freeze_mask(cells, &mut mask[..size]);
    Some(size + len)
}

// The mask of the words from a header on, in which at most so many tuples follow one another.
#[cycle(fill_layout_fill_tuple)]
fn fill_layout(
    words: &[u32],
    metadata: PointerMeta,
    tuples: usize,
    mask: &mut [u8],
) -> Option<usize>
    requires { length mask.old ≤ 4096 }
    ensures { Fills (nested_mask tuples (meta_of metadata) words.now) mask.old result mask.new }
{
    let [word, rest @ ..] = words else {
        return None;
    };
    let head = Header::from(*word);
    let cells = head.cells as usize;
    let size = head.size as usize;
    if !has_cells(rest, cells, size) {
        return None;
    }
    match head.layout {
        LayoutStrategy::Tuple => fill_tuple(
            &rest[..cells],
            size,
            &rest[cells..],
            metadata,
            tuples,
            mask,
        ),
        _ => fill_last(head, metadata, rest, mask),
    }
}

// The mask of all the layout words, the metadata word first, in a buffer that has room for every mask: how many bytes it has. It stands at the buffer's
// start; behind it, and without a mask, the buffer is as before.
pub fn freeze_mask(words: &[u32], mask: &mut [u8]) -> Result<usize, MaskError>
    ensures { (result ≡ answered words.now mask.old) × (mask.new ≡ afterwards words.now mask.old) }
{
    if mask.len() != 4096 {
        return Err(MaskError::WrongLength);
    }
    let [word, rest @ ..] = words else {
        return Err(MaskError::NoMask);
    };
    fill_layout(rest, PointerMeta::from(*word), 8, mask).ok_or(MaskError::NoMask)
}
