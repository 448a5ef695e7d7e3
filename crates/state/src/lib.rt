#![tactic(auto)]

// The lent buffers of a run, their lengths, and the empty state. specs/State.antt says what they hold, specs/Lengths.antt how long they are, and
// specs/Run.antt what they are as one value.
ghost use Rattle.std.specs.Prelude.{◌≡◌, true, length, replicate};
ghost use Rattle.definition.specs.Frame.{empty};
ghost use Rattle.tables.specs.Encoding.{encode};
ghost use Rattle.tables.specs.Held.{buffers};
ghost use Rattle.state.specs.Lengths.{have_memory_lengths, have_lengths};
ghost use Rattle.state.specs.State.{HoldsState};
ghost use Rattle.state.specs.Run.{memory_of, Kept};

use pointer::width::Width;

// ---- the lengths: "a lent buffer has another length than stated". The buffers come one by one, as C lends them
pub fn have_memory_lengths(
    allocs: &[u64],
    parents: &[u16],
    protectors: &[u8],
    words: &[u32],
    codes: &[u8],
) -> bool
    ensures { result ≡ have_memory_lengths (buffers allocs.now parents.now protectors.now words.now codes.now) }
{
    allocs.len() == 1152
        && parents.len() == 1024
        && protectors.len() == 1024
        && words.len() == 4096
        && codes.len() == 32768
}

pub fn have_lengths(
    allocs: &[u64],
    parents: &[u16],
    protectors: &[u8],
    words: &[u32],
    codes: &[u8],
    frames: &[u32],
) -> bool
    ensures { result ≡ have_lengths (buffers allocs.now parents.now protectors.now words.now codes.now) frames.now }
{
    have_memory_lengths(allocs, parents, protectors, words, codes) && frames.len() == 2080
}

// ---- buffers of any contents, of their lengths, are emptied
// "no allocation made" is all zeros.
pub fn clear_memory(
    allocs: &mut [u64],
    parents: &mut [u16],
    protectors: &mut [u8],
    words: &mut [u32],
    codes: &mut [u8],
)
    requires { have_memory_lengths (buffers allocs.old parents.old protectors.old words.old codes.old) ≡ true }
    ensures { buffers allocs.new parents.new protectors.new words.new codes.new ≡ encode empty.memory }
{
    allocs.fill(0);
    parents.fill(0);
    protectors.fill(0);
    words.fill(0);
    codes.fill(0);
}

// And "no frame open".
pub fn clear(
    allocs: &mut [u64],
    parents: &mut [u16],
    protectors: &mut [u8],
    words: &mut [u32],
    codes: &mut [u8],
    frames: &mut [u32],
)
    requires { have_lengths (buffers allocs.old parents.old protectors.old words.old codes.old) frames.old ≡ true }
    ensures { HoldsState empty (buffers allocs.new parents.new protectors.new words.new codes.new) frames.new }
{
    clear_memory(allocs, parents, protectors, words, codes);
    frames::clear(frames);
}

// ---- a run's state: five buffers hold its memory (`tables`), one its frames (`frames`), and its width stands beside them.
#[derive(Drop)]
pub struct RunState<'a> {
    pub allocs: &'a mut [u64],
    pub parents: &'a mut [u16],
    pub protectors: &'a mut [u8],
    pub words: &'a mut [u32],
    pub codes: &'a mut [u8],
    pub frames: &'a mut [u32],
    pub width: Width,
}

impl<'a> RunState<'a> {
    pub fn have_lengths(&self) -> bool
        ensures { result ≡ have_lengths (memory_of self.now) self.now.frames.now }
    {
        have_lengths(
            self.allocs,
            self.parents,
            self.protectors,
            self.words,
            self.codes,
            self.frames,
        )
    }

    // "no allocation made", and "no frame open". The width stays.
    pub fn clear(&mut self)
        requires { have_lengths (memory_of self.old) self.old.frames.now ≡ true }
        ensures held { HoldsState empty (memory_of self.new) self.new.frames.now }
        ensures kept { Kept self.old self.new }
    {
        clear(
            self.allocs,
            self.parents,
            self.protectors,
            self.words,
            self.codes,
            self.frames,
        );
    }
}
