// Kind 1: records and codes change.
ghost use Rattle.definition.specs.Memory as definition;
ghost use Rattle.pointer.specs.Pointer.{thin_pointer_of};
ghost use Rattle.answer.specs.Answer.Gives.{Nothing};
ghost use Rattle.tables.specs.Decoding.{allocation_kind};
ghost use Rattle.tables.specs.Held.{buffers};
ghost use Rattle.library.specs.Fields.{bad_allocation};
ghost use Rattle.library.specs.Entry.{Served};

use answer::Answer;
use pointer::ThinPointer;
use refusal::Refusal;

// Remove an allocation: kind, size and alignment are those that it was made with.
pub fn deallocate(
    allocs: &mut [u64],
    parents: &[u16],
    protectors: &[u8],
    words: &[u32],
    codes: &mut [u8],
    width: u64,
    p: ThinPointer,
    kind: u64,
    len: u64,
    exponent: u64,
) -> Answer
    ensures { Served width Nothing (bad_allocation width kind exponent (thin_pointer_of p).address) (definition.deallocate (thin_pointer_of p) (allocation_kind kind) len exponent)
        (buffers allocs.old parents.now protectors.now words.now codes.old)
        result
        (buffers allocs.new parents.now protectors.now words.now codes.new) }
{
    if !wellformed::at_width::well_formed_at(allocs, parents, protectors, words, codes, width) {
        return Answer::from(Refusal::NotWellFormed);
    }
    if crate::fields::bad_allocation(width, kind, exponent, p.addr) {
        return Answer::from(Refusal::Malformed);
    }
    memory::deallocate::deallocate(allocs, parents, protectors, codes, p, kind, len, exponent)
}
