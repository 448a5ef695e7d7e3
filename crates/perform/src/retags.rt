// Kind 4: the layout words to a mask, the core, and at function entry the frame's new entry.
ghost use Rattle.std.specs.Prelude.{ℕ, ◌<◌, ◌≤◌, ◌≡◌, List, [], length, take};
ghost use Rattle.std.proofs.Math.Option.{some};
ghost use Rattle.definition.specs.Layout.{FreezeMask, freeze_mask};
ghost use Rattle.definition.specs.Memory.{named_pointer};
ghost use Rattle.definition.specs.Frame.{Frame, State};
ghost use Rattle.definition.specs.Request.{pointer, frame_number};
ghost use Rattle.definition.specs.Request as definition;
ghost use Rattle.definition.specs.Retag as reborrows;
ghost use Rattle.definition.specs.Run.{retag_with_mask, perform_retag};
ghost use Rattle.pointer.specs.Pointer.{provenance_of};
ghost use Rattle.answer.specs.Answer.{answer_of};
ghost use Rattle.permission.specs.Codes.{protector};
ghost use Rattle.frames.specs.Buffer.{HoldsFrames, frames_held};
ghost use Rattle.request.specs.Fields.{request_of};
ghost use Rattle.retag.specs.Settings.{mask_of, settings_of};
ghost use Rattle.retag.specs.Retag.{entered};
ghost use Rattle.perform.specs.Performed.{LeftTrees};
ghost use Rattle.state.specs.State.{HoldsTreesAndFrames};
ghost use Rattle.perform.specs.Entered.{CanEnter};

use answer::Answer;
use frames::Entry;
use permission::Protected;
use pointer::Provenance;
use refusal::Refusal;
use request::Request;
use retag::ReborrowSettings;

// What a request says of its reborrow.
fn settings(q: Request) -> ReborrowSettings
    ensures { (mask : FreezeMask) (ws : List ℕ) → settings_of result mask ≡ definition.settings_of (request_of q ws) mask }
{
    ReborrowSettings {
        pointer: request::safe_pointer(q.extra),
        protected: q.protector(),
        freeze: q.freeze(),
    }
}

// The node that a retag gives is entered in frame f, if it is protected. One that is refused, or without provenance, gives none.
fn enter(frames: &mut [u32], f: usize, protected: Protected, answer: Answer)
    requires can_enter { (fs : List Frame) × CanEnter (protector protected) f (named_pointer (answer_of answer []).names) fs frames.old }
    requires f_bound { f < 32 }
    ensures { (fs : List Frame) → HoldsFrames fs frames.old → frames.new ≡ frames_held (entered (protector protected) f (named_pointer (answer_of answer []).names) fs) }
{
    if matches!(protected, Protected::No) {
        return;
    }
    if let Answer::Pointer(Some(Provenance { allocation, node })) = answer {
        frames::push_entry(frames, f, Entry { allocation, node });
    }
}

// A retag with a mask.
fn reborrow_entered(
    allocs: &mut [u64],
    parents: &mut [u16],
    protectors: &mut [u8],
    codes: &mut [u8],
    frames: &mut [u32],
    mask: &mut [u8],
    q: Request,
) -> Answer
    requires { (s : State) × HoldsTreesAndFrames s allocs.old parents.old protectors.old codes.old frames.old }
    ensures { (s : State) (ws : List ℕ) → HoldsTreesAndFrames s allocs.old parents.old protectors.old codes.old frames.old
        → LeftTrees (reborrows.retag (definition.settings_of (request_of q ws) (mask_of mask.old)) (frame_number (request_of q ws)) (pointer (request_of q ws)) s)
        result allocs.new parents.new protectors.new codes.new frames.new }
{
    let p = q.pointer();
    let f = q.frame_number();
    let w = settings(q);
    let count = frames::entry_count(frames, f);
    let answer = retag::reborrow(allocs, parents, protectors, codes, mask, w, p, count);
    enter(frames, f, w.protected, answer);
    answer
}

// A retag that adds a node, if its layout has a mask.
fn retag_with_mask(
    allocs: &mut [u64],
    parents: &mut [u16],
    protectors: &mut [u8],
    codes: &mut [u8],
    frames: &mut [u32],
    q: Request,
    following: &[u32],
) -> Answer
    requires { (s : State) × HoldsTreesAndFrames s allocs.old parents.old protectors.old codes.old frames.old }
    ensures { (s : State) → HoldsTreesAndFrames s allocs.old parents.old protectors.old codes.old frames.old
        → LeftTrees (retag_with_mask (freeze_mask following.now) s (request_of q following.now))
        result allocs.new parents.new protectors.new codes.new frames.new }
{
    let mut mask = [0u8; 4096];
    match layout::freeze_mask(following, &mut mask) {
        Ok(len) => reborrow_entered(
            allocs,
            parents,
            protectors,
            codes,
            frames,
            &mut mask[..len],
            q,
        ),
        Err(_) => Answer::from(Refusal::WithoutMask),
    }
}

pub(crate) fn retag(
    allocs: &mut [u64],
    parents: &mut [u16],
    protectors: &mut [u8],
    codes: &mut [u8],
    frames: &mut [u32],
    q: Request,
    following: &[u32],
) -> Answer
    requires { (s : State) × HoldsTreesAndFrames s allocs.old parents.old protectors.old codes.old frames.old }
    ensures { (s : State) → HoldsTreesAndFrames s allocs.old parents.old protectors.old codes.old frames.old
        → LeftTrees (perform_retag s (request_of q following.now))
        result allocs.new parents.new protectors.new codes.new frames.new }
{
    if q.adds_no_node() {
        return retag::retag_without_node(allocs, q.pointer());
    }
    retag_with_mask(allocs, parents, protectors, codes, frames, q, following)
}
