// Kind 0: records and codes change. What is new in the other buffers is zeros, which stand there already.
ghost use Rattle.definition.specs.Memory as definition;
ghost use Rattle.pointer.specs.Width.{width_at};
ghost use Rattle.answer.specs.Answer.Gives.{ThePointer};
ghost use Rattle.tables.specs.Decoding.{allocation_kind};
ghost use Rattle.tables.specs.Held.{buffers};
ghost use Rattle.library.specs.Fields.{bad_allocation};
ghost use Rattle.library.specs.Entry.{Served};

use answer::Answer;
use refusal::Refusal;

// Create a new allocation at a proposed address. The kinds: "0 Stack, 1 Heap, 2 Global, 3 Function, 4 VTable"; the alignment is 2 to the exponent.
pub fn allocate(
    allocs: &mut [u64],
    parents: &[u16],
    protectors: &[u8],
    words: &[u32],
    codes: &mut [u8],
    width: u64,
    kind: u64,
    len: u64,
    exponent: u64,
    address: u64,
) -> Answer
    ensures { Served width ThePointer (bad_allocation width kind exponent address) (definition.allocate (width_at width) (allocation_kind kind) len exponent address)
        (buffers allocs.old parents.now protectors.now words.now codes.old)
        result
        (buffers allocs.new parents.now protectors.now words.now codes.new) }
{
    if !wellformed::at_width::well_formed_at(allocs, parents, protectors, words, codes, width) {
        return Answer::from(Refusal::NotWellFormed);
    }
    if crate::fields::bad_allocation(width, kind, exponent, address) {
        return Answer::from(Refusal::Malformed);
    }
    memory::allocate::allocate(
        allocs,
        codes,
        pointer::width::width_at(width),
        kind,
        len,
        exponent,
        address,
    )
}
