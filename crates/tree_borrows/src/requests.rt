// Kinds 0 to 3 and 7 to 9, on five lent buffers, at a width that is a number of bits.
ghost use Rattle.std.specs.Prelude.{◌≡◌, false, ◌||◌, length};
ghost use Rattle.definition.specs.Memory as definition;
ghost use Rattle.pointer.specs.Pointer.{back, ahead};
ghost use Rattle.pointer.specs.Width.{width_at};
ghost use Rattle.answer.specs.Answer.{replied};
ghost use Rattle.answer.specs.Answer.Gives.{Nothing, ThePointer};
ghost use Rattle.tables.specs.Decoding.{allocation_kind};
ghost use Rattle.tables.specs.Held.{buffers};
ghost use Rattle.memory.specs.Access.{load_of, store_of};
ghost use Rattle.library.specs.Fields.{bad_address, bad_allocation, bad_load, bad_store};
ghost use Rattle.library.specs.Entry.{served, given_by};
ghost use Rattle.tree_borrows.specs.Numbers.{pointer_of, bad_pointer, loaded_words, copied_to, Replied};

use crate::numbers::{Pointer, Reply, loaded};
use library::fields::malformed;
use pointer::ThinPointer;

// Kind 0.
#[unsafe(no_mangle)]
pub extern "C" fn tree_borrows_allocate(
    allocs: &mut [u64],
    parents: &[u16],
    protectors: &[u8],
    words: &[u32],
    codes: &mut [u8],
    width: u64,
    kind: u64,
    len: u64,
    exponent: u64,
    address: u64,
) -> Reply
    ensures { Replied result
        (buffers allocs.new parents.now protectors.now words.now codes.new)
        (replied ThePointer (served width (bad_allocation width kind exponent address) (definition.allocate (width_at width) (allocation_kind kind) len exponent address)
        (buffers allocs.old parents.now protectors.now words.now codes.old))) }
{
    Reply::from(library::allocate::allocate(
        allocs, parents, protectors, words, codes, width, kind, len, exponent, address,
    ))
}

// Kind 1.
#[unsafe(no_mangle)]
pub extern "C" fn tree_borrows_deallocate(
    allocs: &mut [u64],
    parents: &[u16],
    protectors: &[u8],
    words: &[u32],
    codes: &mut [u8],
    width: u64,
    p: Pointer,
    kind: u64,
    len: u64,
    exponent: u64,
) -> Reply
    ensures { Replied result
        (buffers allocs.new parents.now protectors.now words.now codes.new)
        (replied Nothing (served width (bad_pointer p || bad_allocation width kind exponent (pointer_of p).address) (definition.deallocate (pointer_of p) (allocation_kind kind) len exponent)
        (buffers allocs.old parents.now protectors.now words.now codes.old))) }
{
    let Ok(pointer) = ThinPointer::try_from(p) else {
        return Reply::from(malformed(allocs, parents, protectors, words, codes, width));
    };
    Reply::from(library::deallocate::deallocate(
        allocs, parents, protectors, words, codes, width, pointer, kind, len, exponent,
    ))
}

// Kind 2: the reply names the loaded words, the part of the lent data where the pointer points.
#[unsafe(no_mangle)]
pub extern "C" fn tree_borrows_load(
    allocs: &[u64],
    parents: &[u16],
    protectors: &[u8],
    words: &[u32],
    codes: &mut [u8],
    width: u64,
    p: Pointer,
    len: u64,
    exponent: u64,
) -> Reply
    ensures { Replied result
        (buffers allocs.now parents.now protectors.now words.now codes.new)
        (replied (given_by (load_of (pointer_of p) len exponent)
        (buffers allocs.now parents.now protectors.now words.now codes.old))
        (served width (bad_pointer p || bad_load width exponent (pointer_of p).address) (definition.perform_access (load_of (pointer_of p) len exponent))
        (buffers allocs.now parents.now protectors.now words.now codes.old))) }
{
    let Ok(pointer) = ThinPointer::try_from(p) else {
        return Reply::from(malformed(allocs, parents, protectors, words, codes, width));
    };
    Reply::from(library::load::load(
        allocs, parents, protectors, words, codes, width, pointer, len, exponent,
    ))
}

// The loaded words, which C cannot be handed as a part of the lent data, go to the front of `out`; it stays as it is where it is too short.
// The answer is how many there are.
#[unsafe(no_mangle)]
pub extern "C" fn tree_borrows_load_view(words: &[u32], reply: Reply, out: &mut [u32]) -> usize
    ensures { (result ≡ length (loaded_words reply words.now)) × (out.new ≡ copied_to out.old (loaded_words reply words.now)) }
{
    let answer = loaded(reply);
    let view = library::load::load_view(words, answer);
    if view.len() > out.len() {
        return view.len();
    }
    memory::access::copy_words(out, view);
    view.len()
}

// Kind 3.
#[unsafe(no_mangle)]
pub extern "C" fn tree_borrows_store(
    allocs: &[u64],
    parents: &[u16],
    protectors: &[u8],
    words: &mut [u32],
    codes: &mut [u8],
    width: u64,
    p: Pointer,
    bytes: &[u32],
    exponent: u64,
) -> Reply
    ensures { Replied result
        (buffers allocs.now parents.now protectors.now words.new codes.new)
        (replied Nothing (served width (bad_pointer p || bad_store width bytes.now exponent (pointer_of p).address) (definition.perform_access (store_of (pointer_of p) bytes.now exponent))
        (buffers allocs.now parents.now protectors.now words.old codes.old))) }
{
    let Ok(pointer) = ThinPointer::try_from(p) else {
        return Reply::from(malformed(allocs, parents, protectors, words, codes, width));
    };
    Reply::from(library::store::store(
        allocs, parents, protectors, words, codes, width, pointer, bytes, exponent,
    ))
}

// Kind 7.
#[unsafe(no_mangle)]
pub extern "C" fn tree_borrows_dereferenceable(
    allocs: &[u64],
    parents: &[u16],
    protectors: &[u8],
    words: &[u32],
    codes: &[u8],
    width: u64,
    p: Pointer,
    len: u64,
) -> Reply
    ensures { Replied result
        (buffers allocs.now parents.now protectors.now words.now codes.now)
        (replied Nothing (served width (bad_pointer p || bad_address width (pointer_of p).address) (definition.dereferenceable (pointer_of p) 0 len)
        (buffers allocs.now parents.now protectors.now words.now codes.now))) }
{
    let Ok(pointer) = ThinPointer::try_from(p) else {
        return Reply::from(malformed(allocs, parents, protectors, words, codes, width));
    };
    Reply::from(library::dereferenceable::dereferenceable(
        allocs, parents, protectors, words, codes, width, pointer, len,
    ))
}

// Kind 8.
#[unsafe(no_mangle)]
pub extern "C" fn tree_borrows_signed_dereferenceable(
    allocs: &[u64],
    parents: &[u16],
    protectors: &[u8],
    words: &[u32],
    codes: &[u8],
    width: u64,
    p: Pointer,
    len: i64,
) -> Reply
    ensures { Replied result
        (buffers allocs.now parents.now protectors.now words.now codes.now)
        (replied Nothing (served width (bad_pointer p || bad_address width (pointer_of p).address) (definition.dereferenceable (pointer_of p) (back len) (ahead len))
        (buffers allocs.now parents.now protectors.now words.now codes.now))) }
{
    let Ok(pointer) = ThinPointer::try_from(p) else {
        return Reply::from(malformed(allocs, parents, protectors, words, codes, width));
    };
    Reply::from(library::dereferenceable::signed_dereferenceable(
        allocs, parents, protectors, words, codes, width, pointer, len,
    ))
}

// Kind 9.
#[unsafe(no_mangle)]
pub extern "C" fn tree_borrows_leak_check(
    allocs: &[u64],
    parents: &[u16],
    protectors: &[u8],
    words: &[u32],
    codes: &[u8],
    width: u64,
) -> Reply
    ensures { Replied result
        (buffers allocs.now parents.now protectors.now words.now codes.now)
        (replied Nothing (served width false definition.leak_check
        (buffers allocs.now parents.now protectors.now words.now codes.now))) }
{
    Reply::from(library::leak_check::leak_check(allocs, parents, protectors, words, codes, width))
}
