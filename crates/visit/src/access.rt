// The accesses of a visit at its bytes, from the first visited one on.
ghost use Rattle.std.specs.Prelude.{◌≡◌, true, false, ℕ, ◌<◌, get_or};
ghost use Rattle.std.proofs.Math.Option.{none};
ghost use Rattle.permission.specs.Codes.{maybe_access, node_relation, numbered};
ghost use Rattle.visit.specs.Walk.{SameVisit, access_at, outcome_at, told_access};

use crate::{Accesses, Reach};
use permission::{AccessKind, NodeRelation, Outcome};

// The lent number at the k-th of them, 0 where there is none.
fn lent_at(lent: &[u8], k: usize) -> u8
    ensures { result ≡ get_or lent.now k 0 }
{
    // by `get(k)` whole runs are up to 4 % slower
    if k < lent.len() { lent[k] } else { 0 }
}

// The access that a number tells.
fn told_access(number: u8) -> Option<AccessKind>
    ensures { maybe_access result ≡ told_access number }
{
    match number {
        0 => None,
        1 => Some(AccessKind::Read),
        _ => Some(AccessKind::Write),
    }
}

pub(crate) fn access_at(what: Accesses, lent: &[u8], k: usize) -> Option<AccessKind>
    ensures { maybe_access result ≡ access_at what lent.now k }
{
    match what {
        Accesses::Each(kind) => Some(kind),
        Accesses::Told => told_access(lent_at(lent, k)),
        Accesses::AtInit => permission::init_access(lent_at(lent, k)),
    }
}

// What an access makes of a code, if there is one. With a call of it at each byte the loops over short rows take
// 1.2 to 2 times as long.
#[inline(always)]
pub(crate) fn outcome(code: u8, access: Option<AccessKind>, relation: NodeRelation) -> Outcome
    ensures { numbered result ≡ outcome_at (maybe_access access) (node_relation relation) code }
{
    match access {
        None => Ok(None),
        Some(kind) => permission::transition(code, kind, relation),
    }
}

// All bytes have the number of the first. No way leads out of the loop, so that the compiler makes vector code of it.
fn all_alike(lent: &[u8], len: usize) -> bool
    ensures { result ≡ true → (i : ℕ) → i < len → get_or lent.now i 0 ≡ get_or lent.now 0 0 }
{
    if lent.len() < len {
        return false;
    }
    let first = lent_at(lent, 0);
    let mut alike = true;
    for number in &lent[..len] {
        alike &= *number == first;
    }
    alike
}

// Some byte has an access. Where none has, nothing is visited (`check_lent`).
pub(crate) fn any_access(what: Accesses, lent: &[u8], len: usize) -> bool
    ensures { result ≡ false → (i : ℕ) → i < len → access_at what lent.now i ≡ none }
{
    (0..len).any(|k| access_at(what, lent, k).is_some())
}

// A visit by a lent row, as one of the same access at each byte where all of them have the same: it is then worked out once, and not at each node.
pub fn settled(lent: &[u8], v: Reach) -> Reach
    ensures { SameVisit v lent.now result }
{
    if !all_alike(lent, v.len) {
        return v;
    }
    match access_at(v.what, lent, 0) {
        None => v,
        Some(kind) => Reach {
            what: Accesses::Each(kind),
            ..v
        },
    }
}
