// Kind 4 on a lent memory and so many places of a frame, with nothing asked of the caller. mem.rs: `retag_ptr`.
// specs/Retag.antt is the promise of `retag_list`; specs/Settings.antt says what its settings are in the definition.
ghost use Rattle.std.specs.Prelude.{None, ◌≡◌, List, ℕ, ◌≤◌, length, set};
ghost use Rattle.definition.specs.Layout.{FreezeMask};
ghost use Rattle.definition.specs.Memory.{Memory, named_pointer};
ghost use Rattle.definition.specs.Frame.{State, frame_at};
ghost use Rattle.definition.specs.Frame as frames;
ghost use Rattle.definition.specs.Request as definition;
ghost use Rattle.pointer.specs.Pointer.{provenance_of, thin_pointer_of};
ghost use Rattle.answer.specs.Answer.{answer_of};
ghost use Rattle.permission.specs.Codes as permission;
ghost use Rattle.tables.specs.Held.{buffers};
ghost use Rattle.retag.specs.Settings.{settings_of};
ghost use Rattle.parts.specs.Trees.{HoldsMarked};
ghost use Rattle.library_frames.specs.Settings.{retag_of, fields_of, bad_fields, protects};
ghost use Rattle.library_frames.specs.Retag.{lent, is_lent, Served};
ghost use Rattle.library_frames.specs.Outcome.{Performed, entered_node, outcome_of, malformed_outcome};

use answer::Answer;
use frames::Entry;
use permission::Protected;
use pointer::{Provenance, ThinPointer};
use refusal::Refusal;
use retag::ReborrowSettings;

// What is retagged: extra (0 shared reference, 1 mutable reference, 2 box, 3 raw, 4 function, 5 vtable pointer), and the flags. They are read
// where they have a use: unpin for a mutable reference, the others where a node is added.
#[derive(Clone, Copy)]
pub struct RetagSettings {
    pub extra: u32,
    pub function_entry: bool,
    pub unpin: bool,
    pub freeze: bool,
}

// The answer, and how many entries the frame then has.
#[derive(Clone, Copy)]
pub struct RetagAnswer {
    pub answer: Answer,
    pub count: usize,
}

// What a retag comes to, and the entry that is put into the frame's list. For none the place is behind the list.
#[derive(Clone, Copy)]
pub struct RetagOutcome {
    pub answer: RetagAnswer,
    pub at: usize,
    pub entry: Entry,
}

// ---- settings
// This and `protector` are what `request` says of a request too, whose flags stand in a word: to make that word here would be no plainer.
// "No node .. for extra 3 to 5 and for a mutable reference that isn't unpin"
fn adds_no_node(settings: RetagSettings) -> bool
    ensures { result ≡ definition.adds_no_node (fields_of settings) }
{
    settings.extra >= 3 || (settings.extra == 1 && !settings.unpin)
}

// 2. The layout is read where a node may be added.
fn bad_fields(width: u64, settings: RetagSettings, address: u64, layout: &[u32]) -> bool
    ensures { result ≡ bad_fields width settings address layout.now }
{
    settings.extra > 5
        || (!adds_no_node(settings) && request::bad_metadata(layout))
        || pointer::width::width_at(width).is_too_high(address)
}

fn protector(settings: RetagSettings) -> Protected
    ensures { permission.protector result ≡ definition.protector_of (fields_of settings) }
{
    if settings.function_entry {
        request::entry_protector(request::safe_pointer(settings.extra))
    } else {
        Protected::No
    }
}

fn reborrow_settings(settings: RetagSettings) -> ReborrowSettings
    ensures { (mask : FreezeMask) → settings_of result mask ≡ definition.settings_of (fields_of settings) mask }
{
    ReborrowSettings {
        pointer: request::safe_pointer(settings.extra),
        protected: protector(settings),
        freeze: settings.freeze,
    }
}

// ---- the retag of a memory that is held, for a frame with so many entries
// "No node, and the same pointer with 5 to 24 untested"; or 3; or a retag that may add one.
fn retag_held(
    allocs: &mut [u64],
    parents: &mut [u16],
    protectors: &mut [u8],
    codes: &mut [u8],
    layout: &[u32],
    p: ThinPointer,
    settings: RetagSettings,
    count: usize,
) -> Answer
    requires { (m : Memory) × HoldsMarked m allocs.old parents.old protectors.old codes.old }
    ensures { (s : State) → HoldsMarked s.memory allocs.old parents.old protectors.old codes.old
        → count ≡ length (frames.entries (frame_at s 0))
        → Performed (retag_of settings (thin_pointer_of p) layout.now s)
        result allocs.new parents.new protectors.new codes.new }
{
    if adds_no_node(settings) {
        return retag::retag_without_node(allocs, p);
    }
    let mut mask = [0u8; 4096];
    match layout::freeze_mask(layout, &mut mask) {
        Ok(len) => {
            let w = reborrow_settings(settings);
            retag::reborrow(
                allocs,
                parents,
                protectors,
                codes,
                &mut mask[..len],
                w,
                p,
                count,
            )
        }
        Err(_) => Answer::from(Refusal::WithoutMask),
    }
}

// ---- the frame's list
// A protected node is entered: that of the pointer that is given.
fn entered_node(answer: Answer, settings: RetagSettings) -> Option<Provenance>
    ensures { (words : List ℕ) → provenance_of result ≡ entered_node (protects settings) (named_pointer (answer_of answer words).names) }
{
    if adds_no_node(settings) || !settings.function_entry {
        return None;
    }
    match answer {
        Answer::Pointer(provenance) => provenance,
        _ => None,
    }
}

// Nothing is entered.
fn without_entry(answer: Answer, count: usize, len: usize) -> RetagOutcome
    ensures { result ≡ outcome_of answer None count len }
{
    RetagOutcome {
        answer: RetagAnswer { answer, count },
        at: len,
        entry: Entry {
            allocation: 0,
            node: 0,
        },
    }
}

// A node is entered behind the `count` entries.
fn with_entry(answer: Answer, node: Option<Provenance>, count: usize, len: usize) -> RetagOutcome
    requires { count ≤ 64 }
    ensures { result ≡ outcome_of answer node count len }
{
    match node {
        None => without_entry(answer, count, len),
        Some(node) => RetagOutcome {
            answer: RetagAnswer {
                answer,
                count: count + 1,
            },
            at: count,
            entry: Entry {
                allocation: node.allocation,
                node: node.node,
            },
        },
    }
}

// ---- the entry
// Not refused with 1.
pub(crate) fn is_lent(
    len: usize,
    count: usize,
    allocs: &[u64],
    parents: &[u16],
    protectors: &[u8],
    words: &[u32],
    codes: &[u8],
    width: u64,
) -> bool
    ensures { result ≡ is_lent width len count
        (buffers allocs.now parents.now protectors.now words.now codes.now) }
{
    len == 64
        && count <= 64
        && wellformed::at_width::well_formed_at(allocs, parents, protectors, words, codes, width)
}

// What a retag comes to where one of its fields falls under 2: 1 comes first.
pub fn malformed(
    len: usize,
    count: usize,
    allocs: &[u64],
    parents: &[u16],
    protectors: &[u8],
    words: &[u32],
    codes: &[u8],
    width: u64,
) -> RetagOutcome
    ensures { result ≡ malformed_outcome width len count
        (buffers allocs.now parents.now protectors.now words.now codes.now) }
{
    let refusal = if is_lent(len, count, allocs, parents, protectors, words, codes, width) {
        Refusal::Malformed
    } else {
        Refusal::NotWellFormed
    };
    without_entry(Answer::from(refusal), count, len)
}

// All of a retag but the store into the frame's list, whatever stands there. For whatever is lent: 1 or 2, and nothing changes; or the retag of
// the memory that the buffers hold, and a protected node is to be put behind the `count` entries.
pub fn retag_list(
    len: usize,
    count: usize,
    allocs: &mut [u64],
    parents: &mut [u16],
    protectors: &mut [u8],
    words: &[u32],
    codes: &mut [u8],
    width: u64,
    layout: &[u32],
    p: ThinPointer,
    settings: RetagSettings,
) -> RetagOutcome
    ensures { (places : List Entry) → length places ≡ len
        → Served width settings (thin_pointer_of p) layout.now
        (lent places count (buffers allocs.old parents.old protectors.old words.now codes.old))
        result.answer (set places result.at result.entry)
        (buffers allocs.new parents.new protectors.new words.now codes.new) }
{
    if !is_lent(len, count, allocs, parents, protectors, words, codes, width) {
        return without_entry(Answer::from(Refusal::NotWellFormed), count, len);
    }
    if bad_fields(width, settings, p.addr, layout) {
        return without_entry(Answer::from(Refusal::Malformed), count, len);
    }
    let answer = retag_held(
        allocs, parents, protectors, codes, layout, p, settings, count,
    );
    let node = entered_node(answer, settings);
    with_entry(answer, node, count, len)
}
