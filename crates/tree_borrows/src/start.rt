// What a memory and a call start from.
ghost use Rattle.std.specs.Prelude.{◌≡◌};
ghost use Rattle.tables.specs.Held.{buffers};
ghost use Rattle.library.specs.Start.{renewed, opened};
ghost use Rattle.tree_borrows.specs.Numbers.{Replied};

use crate::numbers::{Reply, RetagReply};

// The empty memory, on buffers of any contents. It is one at every width.
#[unsafe(no_mangle)]
pub extern "C" fn tree_borrows_new(
    allocs: &mut [u64],
    parents: &mut [u16],
    protectors: &mut [u8],
    words: &mut [u32],
    codes: &mut [u8],
    width: u64,
) -> Reply
    ensures { Replied result
        (buffers allocs.new parents.new protectors.new words.new codes.new)
        (renewed width (buffers allocs.old parents.old protectors.old words.old codes.old)) }
{
    Reply::from(library::start::new(allocs, parents, protectors, words, codes, width))
}

// Kind 5: a frame without entries, on 64 places of any contents. Each is an entry's allocation and node, laid out as the struct is that a retag and an
// end call are lent.
#[unsafe(no_mangle)]
pub extern "C" fn tree_borrows_new_call(places: &mut [[u32; 2]]) -> RetagReply
    ensures { Replied result.reply places.new (opened places.old) × (result.count ≡ 0) }
{
    RetagReply {
        reply: Reply::from(library::start::new_call(places)),
        count: 0,
    }
}
