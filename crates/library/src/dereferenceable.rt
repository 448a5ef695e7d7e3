// Kinds 7 and 8: they change nothing.
ghost use Rattle.definition.specs.Memory as definition;
ghost use Rattle.pointer.specs.Pointer.{thin_pointer_of, back, ahead};
ghost use Rattle.answer.specs.Answer.Gives.{Nothing};
ghost use Rattle.tables.specs.Held.{buffers};
ghost use Rattle.library.specs.Fields.{bad_address};
ghost use Rattle.library.specs.Entry.{Served};

use answer::Answer;
use pointer::ThinPointer;
use refusal::Refusal;

// Test whether the given pointer is dereferenceable for the given size.
pub fn dereferenceable(
    allocs: &[u64],
    parents: &[u16],
    protectors: &[u8],
    words: &[u32],
    codes: &[u8],
    width: u64,
    p: ThinPointer,
    len: u64,
) -> Answer
    ensures { Served width Nothing (bad_address width (thin_pointer_of p).address) (definition.dereferenceable (thin_pointer_of p) 0 len)
        (buffers allocs.now parents.now protectors.now words.now codes.now)
        result
        (buffers allocs.now parents.now protectors.now words.now codes.now) }
{
    if !wellformed::at_width::well_formed_at(allocs, parents, protectors, words, codes, width) {
        return Answer::from(Refusal::NotWellFormed);
    }
    if crate::fields::bad_address(width, p.addr) {
        return Answer::from(Refusal::Malformed);
    }
    bounds::dereferenceable(allocs, p, len)
}

// The same with a signed length: "A negative signed length reaches back from the pointer; no address wraps there."
pub fn signed_dereferenceable(
    allocs: &[u64],
    parents: &[u16],
    protectors: &[u8],
    words: &[u32],
    codes: &[u8],
    width: u64,
    p: ThinPointer,
    len: i64,
) -> Answer
    ensures { Served width Nothing (bad_address width (thin_pointer_of p).address) (definition.dereferenceable (thin_pointer_of p) (back len) (ahead len))
        (buffers allocs.now parents.now protectors.now words.now codes.now)
        result
        (buffers allocs.now parents.now protectors.now words.now codes.now) }
{
    if !wellformed::at_width::well_formed_at(allocs, parents, protectors, words, codes, width) {
        return Answer::from(Refusal::NotWellFormed);
    }
    if crate::fields::bad_address(width, p.addr) {
        return Answer::from(Refusal::Malformed);
    }
    bounds::signed_dereferenceable(allocs, p, len)
}
