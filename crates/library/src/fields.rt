// 2: "A field is outside its list, an alignment exponent exceeds 29, a byte word is malformed", an address or a position is too big for the width.
ghost use Rattle.std.specs.Prelude.{◌≡◌};
ghost use Rattle.tables.specs.Held.{buffers};
ghost use Rattle.library.specs.Fields.{bad_exponent, bad_address, bad_allocation, bad_load, bad_store};
ghost use Rattle.library.specs.Entry.{malformed_answer};

use answer::Answer;
use refusal::Refusal;

pub(crate) fn bad_exponent(exponent: u64) -> bool
    ensures { result ≡ bad_exponent exponent }
{
    exponent > 29
}

// The width is a number of bits, which was tested.
pub(crate) fn bad_address(width: u64, address: u64) -> bool
    ensures { result ≡ bad_address width address }
{
    pointer::width::width_at(width).is_too_high(address)
}

// Of an allocation and a deallocation.
#[tactic(auto, unfolding(crate::specs::Fields::bad_allocation))]
pub(crate) fn bad_allocation(width: u64, kind: u64, exponent: u64, address: u64) -> bool
    ensures { result ≡ bad_allocation width kind exponent address }
{
    bad_exponent(exponent) || kind > 4 || bad_address(width, address)
}

#[tactic(auto, unfolding(crate::specs::Fields::bad_load))]
pub(crate) fn bad_load(width: u64, exponent: u64, address: u64) -> bool
    ensures { result ≡ bad_load width exponent address }
{
    bad_exponent(exponent) || bad_address(width, address)
}

#[tactic(auto, unfolding(crate::specs::Fields::bad_store))]
pub(crate) fn bad_store(width: u64, bytes: &[u32], exponent: u64, address: u64) -> bool
    ensures { result ≡ bad_store width bytes.now exponent address }
{
    bad_exponent(exponent)
        || pointer::any_bad_byte(bytes)
        || bad_address(width, address)
        || pointer::width::any_far_byte(bytes, pointer::width::width_at(width))
}

// What an entry answers where one of its fields falls under 2: 1 comes first.
#[tactic(auto, unfolding(crate::specs::Entry::malformed_answer))]
pub fn malformed(
    allocs: &[u64],
    parents: &[u16],
    protectors: &[u8],
    words: &[u32],
    codes: &[u8],
    width: u64,
) -> Answer
    ensures { result ≡ malformed_answer width (buffers allocs.now parents.now protectors.now words.now codes.now) }
{
    if wellformed::at_width::well_formed_at(allocs, parents, protectors, words, codes, width) {
        return Answer::from(Refusal::Malformed);
    }
    Answer::from(Refusal::NotWellFormed)
}
