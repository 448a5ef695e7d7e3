// The requests that need no frame.
ghost use Rattle.std.specs.Prelude.{◌≡◌};
ghost use Rattle.definition.specs.Frame.{State};
ghost use Rattle.pointer.specs.Width.{width_of};
ghost use Rattle.permission.specs.declared.AccessKind.TheVariants.{Read, Write};
ghost use Rattle.request.specs.declared.Kind.TheVariants.{Load, Store};
ghost use Rattle.tables.specs.Held.{buffers};
ghost use Rattle.perform.specs.Performed.{outcome_of, Asked, LeftMemory};

use answer::Answer;
use permission::AccessKind;
use pointer::width::Width;
use refusal::Refusal;
use request::{Kind, Request};

// A load reads, a store writes.
fn access_kind(kind: Kind) -> AccessKind
    ensures { (kind ≡ Load → result ≡ Read) × (kind ≡ Store → result ≡ Write) }
{
    match kind {
        Kind::Store => AccessKind::Write,
        _ => AccessKind::Read,
    }
}

// Kinds 0 to 3 and 7 to 9, each by its core. The pointer is made in the arm that hands it on, where it stays in registers: one for all arms lies in
// memory for the call of a deallocation, and the small requests wait for it.
pub(crate) fn in_memory(
    allocs: &mut [u64],
    parents: &[u16],
    protectors: &[u8],
    words: &mut [u32],
    codes: &mut [u8],
    width: Width,
    q: Request,
    following: &[u32],
) -> Answer
    requires { (s : State) × Asked s q following.now (buffers allocs.old parents.now protectors.now words.old codes.old) }
    ensures { (s : State) → Asked s q following.now (buffers allocs.old parents.now protectors.now words.old codes.old)
        → LeftMemory (outcome_of (width_of width) s q following.now) result (buffers allocs.new parents.now protectors.now words.new codes.new) }
{
    let extra = u64::from(q.extra);
    let len = u64::from(q.fourth);
    let exponent = u64::from(q.exponent);
    match q.kind {
        Kind::Allocate => memory::allocate::allocate(
            allocs, codes, width, extra, len, exponent, q.address,
        ),
        Kind::Deallocate => memory::deallocate::deallocate(
            allocs,
            parents,
            protectors,
            codes,
            q.pointer(),
            extra,
            len,
            exponent,
        ),
        Kind::Load | Kind::Store => memory::access::load_or_store(
            allocs,
            parents,
            words,
            codes,
            access_kind(q.kind),
            q.pointer(),
            len,
            exponent,
            following,
        ),
        Kind::Dereferenceable => bounds::dereferenceable(allocs, q.pointer(), len),
        Kind::SignedDereferenceable => bounds::signed_dereferenceable(
            allocs,
            q.pointer(),
            q.signed_length(),
        ),
        Kind::LeakCheck => bounds::leak_check(allocs),
        // no such kind is asked
        Kind::Retag | Kind::NewCall | Kind::EndCall | Kind::Empty | Kind::Unused => {
            Answer::from(Refusal::Malformed)
        }
    }
}
