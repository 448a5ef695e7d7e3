// Kind 2: the codes change, and no byte does.
ghost use Rattle.definition.specs.Memory.{perform_access};
ghost use Rattle.pointer.specs.Pointer.{thin_pointer_of};
ghost use Rattle.answer.specs.Answer.{HandsOut};
ghost use Rattle.tables.specs.Held.{buffers};
ghost use Rattle.memory.specs.Access.{load_of};
ghost use Rattle.library.specs.Fields.{bad_load};
ghost use Rattle.library.specs.Entry.{Served, given_by};

use answer::Answer;
use pointer::ThinPointer;
use refusal::Refusal;

// The loaded words are a part of the lent data, which the answer names: it starts at the pointer's offset behind the allocation's words, and has
// the length asked for. `load_view` hands it out.
pub fn load(
    allocs: &[u64],
    parents: &[u16],
    protectors: &[u8],
    words: &[u32],
    codes: &mut [u8],
    width: u64,
    p: ThinPointer,
    len: u64,
    exponent: u64,
) -> Answer
    ensures { Served width
        (given_by (load_of (thin_pointer_of p) len exponent)
        (buffers allocs.now parents.now protectors.now words.now codes.old))
        (bad_load width exponent (thin_pointer_of p).address) (perform_access (load_of (thin_pointer_of p) len exponent))
        (buffers allocs.now parents.now protectors.now words.now codes.old)
        result
        (buffers allocs.now parents.now protectors.now words.now codes.new) }
{
    if !wellformed::at_width::well_formed_at(allocs, parents, protectors, words, codes, width) {
        return Answer::from(Refusal::NotWellFormed);
    }
    if crate::fields::bad_load(width, exponent, p.addr) {
        return Answer::from(Refusal::Malformed);
    }
    memory::access::load(allocs, parents, codes, p, len, exponent)
}

// "The bytes of an accepted load are handed out as a part of the lent data": of the caller's slice itself, from where the answer says. The part is
// empty for length zero and for any other answer.
pub fn load_view<'d>(words: &'d [u32], answer: Answer) -> &'d [u32]
    ensures { HandsOut answer words.entry result }
{
    answer::loaded_words(answer, words)
}
