#![tactic(auto)]

// The library for C and Rust: its entries under names that a linker finds, with pointers and answers as numbers (specs/Numbers.antt).
// Each promises the numbers of what the entry that it calls comes to, and none has a `requires`. A slice crosses as its address and its length,
// a flag as a number, of which 0 and 1 are in its list (2).
// C needs it so: an export for each kind, the buffers one by one, and numbers for what is given.
ghost use Rattle.std.specs.Prelude.{◌≡◌, List, length, set};
ghost use Rattle.frames.specs.List.{first_of};
ghost use Rattle.tables.specs.Held.{buffers};
ghost use Rattle.library_frames.specs.EndCall.{ended};
ghost use Rattle.library_frames.specs.Retag as retag;
ghost use Rattle.tree_borrows.specs.Numbers.{Replied, RetagReplied};

use crate::numbers::{Pointer, Reply, RetagMade, RetagReply, Settings};
use frames::{Entry, load, put_if};
use library_frames::calls::end_call_list;
use library_frames::retags::{RetagSettings, malformed, retag_list};
use pointer::ThinPointer;

mod lists;
mod numbers;
mod requests;
mod start;

// ---- kinds 4 and 6. "The frame's protector list is lent as entries of allocation and node": the first `count` of the lent places. Each kind has
// two functions: the export reads the lent slice of structs or stores into it, and the other does all else.
// All of a retag but the store into the frame's list, whatever stands there.
fn retag_reply(
    len: usize,
    count: usize,
    allocs: &mut [u64],
    parents: &mut [u16],
    protectors: &mut [u8],
    words: &[u32],
    codes: &mut [u8],
    width: u64,
    layout: &[u32],
    p: Pointer,
    settings: Settings,
) -> RetagMade
    ensures { (places : List Entry) → length places ≡ len
        → RetagReplied width settings p layout.now
        (retag.lent places count (buffers allocs.old parents.old protectors.old words.now codes.old))
        result.answer (set places result.at result.entry)
        (buffers allocs.new parents.new protectors.new words.now codes.new) }
{
    let (Ok(pointer), Ok(read)) = (ThinPointer::try_from(p), RetagSettings::try_from(settings))
    else {
        let outcome = malformed(len, count, allocs, parents, protectors, words, codes, width);
        return RetagMade::from(outcome);
    };
    RetagMade::from(retag_list(
        len, count, allocs, parents, protectors, words, codes, width, layout, pointer, read,
    ))
}

#[unsafe(no_mangle)]
pub extern "C" fn tree_borrows_retag(
    entries: &mut [Entry],
    count: usize,
    allocs: &mut [u64],
    parents: &mut [u16],
    protectors: &mut [u8],
    words: &[u32],
    codes: &mut [u8],
    width: u64,
    layout: &[u32],
    p: Pointer,
    settings: Settings,
) -> RetagReply
    ensures { RetagReplied width settings p layout.now
        (retag.lent entries.old count (buffers allocs.old parents.old protectors.old words.now codes.old))
        result entries.new
        (buffers allocs.new parents.new protectors.new words.now codes.new) }
{
    let len = entries.len();
    let made = retag_reply(
        len, count, allocs, parents, protectors, words, codes, width, layout, p, settings,
    );
    put_if(entries, made.at, made.entry);
    made.answer
}

// The entries are the first `count` of a list of `len` places, of which the first 64 are given.
fn end_call_reply(
    len: usize,
    list: [Entry; 64],
    count: usize,
    allocs: &[u64],
    parents: &[u16],
    protectors: &mut [u8],
    words: &[u32],
    codes: &mut [u8],
    width: u64,
    area: &mut [u8],
) -> Reply
    ensures { Replied result
        (buffers allocs.now parents.now protectors.new words.now codes.new, area.new)
        (ended width len count (first_of count list)
        (buffers allocs.now parents.now protectors.old words.now codes.old) area.old) }
{
    Reply::from(end_call_list(
        len, list, count, allocs, parents, protectors, words, codes, width, area,
    ))
}

#[unsafe(no_mangle)]
pub extern "C" fn tree_borrows_end_call(
    entries: &[Entry],
    count: usize,
    allocs: &[u64],
    parents: &[u16],
    protectors: &mut [u8],
    words: &[u32],
    codes: &mut [u8],
    width: u64,
    area: &mut [u8],
) -> Reply
    ensures { Replied result
        (buffers allocs.now parents.now protectors.new words.now codes.new, area.new)
        (ended width (length entries.now) count (first_of count entries.now)
        (buffers allocs.now parents.now protectors.old words.now codes.old) area.old) }
{
    let len = entries.len();
    let list = load(entries);
    end_call_reply(
        len, list, count, allocs, parents, protectors, words, codes, width, area,
    )
}
