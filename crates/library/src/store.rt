// Kind 3: words and codes change.
ghost use Rattle.definition.specs.Memory.{perform_access};
ghost use Rattle.pointer.specs.Pointer.{thin_pointer_of};
ghost use Rattle.answer.specs.Answer.Gives.{Nothing};
ghost use Rattle.tables.specs.Held.{buffers};
ghost use Rattle.memory.specs.Access.{store_of};
ghost use Rattle.library.specs.Fields.{bad_store};
ghost use Rattle.library.specs.Entry.{Served};

use answer::Answer;
use pointer::ThinPointer;
use refusal::Refusal;

// Write some bytes to memory; the length is theirs.
pub fn store(
    allocs: &[u64],
    parents: &[u16],
    protectors: &[u8],
    words: &mut [u32],
    codes: &mut [u8],
    width: u64,
    p: ThinPointer,
    bytes: &[u32],
    exponent: u64,
) -> Answer
    ensures { Served width Nothing (bad_store width bytes.now exponent (thin_pointer_of p).address) (perform_access (store_of (thin_pointer_of p) bytes.now exponent))
        (buffers allocs.now parents.now protectors.now words.old codes.old)
        result
        (buffers allocs.now parents.now protectors.now words.new codes.new) }
{
    if !wellformed::at_width::well_formed_at(allocs, parents, protectors, words, codes, width) {
        return Answer::from(Refusal::NotWellFormed);
    }
    if crate::fields::bad_store(width, bytes, exponent, p.addr) {
        return Answer::from(Refusal::Malformed);
    }
    memory::access::store(allocs, parents, words, codes, p, bytes, exponent)
}
