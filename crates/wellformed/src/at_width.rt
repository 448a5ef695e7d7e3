// Whether five lent buffers hold a memory of a target with pointers of so many bits (refusal 1).
ghost use Rattle.std.specs.Prelude.{◌≡◌, ◌<◌, length};
ghost use Rattle.definition.specs.Notation.{any};
ghost use Rattle.definition.specs.Memory.{Memory, allocation_at};
ghost use Rattle.pointer.specs.Width.{width_of};
ghost use Rattle.tables.specs.Held.{Records, buffers};
ghost use Rattle.wellformed.specs.AtWidth.{is_beyond, fits_in, well_formed_at};

use pointer::width::Width;

// ---- `Records` stays a clause of each: it is of a memory that only proofs know, and of a slice that C lends.
// Allocation i ends behind the last address.
fn beyond_at(allocs: &[u64], i: usize, width: Width) -> bool
    requires { (m : Memory) × (Records m allocs.now × (i < length m)) }
    ensures { (m : Memory) → Records m allocs.now → result ≡ is_beyond (width_of width) (allocation_at m i) }
{
    let a = tables::allocation_at(allocs, i);
    width.is_too_high(a.address + a.size as u64)
}

// Some allocation does, dead or alive.
fn any_beyond(allocs: &[u64], width: Width) -> bool
    requires { (m : Memory) × Records m allocs.now }
    ensures { (m : Memory) → Records m allocs.now → result ≡ any (is_beyond (width_of width)) m }
{
    for i in 0..tables::made_count(allocs) {
        if beyond_at(allocs, i, width) {
            return true;
        }
    }
    false
}

// At 64 bits every memory fits.
#[tactic(auto, unfolding(crate::specs::AtWidth::fits_in))]
fn fits_width(allocs: &[u64], words: &[u32], width: Width) -> bool
    requires { (m : Memory) × Records m allocs.now }
    ensures { (m : Memory) → Records m allocs.now → result ≡ fits_in (width_of width) m words.now }
{
    match width {
        Width::Bits64 => true,
        _ => !any_beyond(allocs, width) && !pointer::width::any_far_byte(words, width),
    }
}

// The width is a number of bits: 16, 32 or 64.
#[tactic(auto, unfolding(crate::specs::AtWidth::well_formed_at))]
pub fn well_formed_at(
    allocs: &[u64],
    parents: &[u16],
    protectors: &[u8],
    words: &[u32],
    codes: &[u8],
    width: u64,
) -> bool
    ensures { result ≡ well_formed_at width (buffers allocs.now parents.now protectors.now words.now codes.now) }
{
    if !pointer::width::is_width(width)
        || !crate::well_formed(allocs, parents, protectors, words, codes)
    {
        return false;
    }
    fits_width(allocs, words, pointer::width::width_at(width))
}
