// Whether every visited code of a row stays.
ghost use Rattle.std.specs.Prelude.{◌≡◌, true, ◌&&◌, fold};
ghost use Rattle.std.specs.List.{list_all};
ghost use Rattle.permission.specs.Codes.{access_kind, node_relation, numbered, transition_code};
ghost use Rattle.visit.specs.Walk.{bytes_stay, is_stays, short_stays};

use crate::Accesses;
use crate::access::{access_at, outcome};
use permission::{AccessKind, NodeRelation, Outcome};

// ---- one code
fn stays(outcome: Outcome) -> bool
    ensures { result ≡ is_stays (numbered outcome) }
{
    matches!(outcome, Ok(None))
}

// ---- a short row: up to the first code that does not stay
fn stay_under(row: &[u8], kind: AccessKind, relation: NodeRelation) -> bool
    ensures { result ≡ list_all (λ c. is_stays (transition_code (access_kind kind) (node_relation relation) c)) row.now }
{
    match relation {
        NodeRelation::Local => row.iter().all(|c| stays(permission::local(*c, kind))),
        NodeRelation::Foreign => row.iter().all(|c| stays(permission::foreign(*c, kind))),
    }
}

// It is not asked where bytes have accesses of their own.
pub(crate) fn short_stays(row: &[u8], what: Accesses, relation: NodeRelation) -> bool
    ensures { result ≡ short_stays what (node_relation relation) row.now }
{
    match what {
        Accesses::Each(kind) => stay_under(row, kind, relation),
        Accesses::Told => false,
        Accesses::AtInit => false,
    }
}

// ---- a long row: no way leads out of the loops, so that the compiler makes vector code of them
fn long_under(row: &[u8], kind: AccessKind, relation: NodeRelation) -> bool
    ensures { result ≡ fold (λ all c. all && is_stays (transition_code (access_kind kind) (node_relation relation) c)) true row.now }
{
    match relation {
        NodeRelation::Local => row
            .iter()
            .fold(true, |all, c| all & stays(permission::local(*c, kind))),
        NodeRelation::Foreign => row
            .iter()
            .fold(true, |all, c| all & stays(permission::foreign(*c, kind))),
    }
}

// Under accesses of their own. It is inlined with what its callers hand on as constants, so that there is a loop for each of them.
#[inline(always)]
fn told(row: &[u8], lent: &[u8], what: Accesses, relation: NodeRelation) -> bool
    ensures { result ≡ bytes_stay what lent.now (node_relation relation) row.now }
{
    let mut all = true;
    for (k, code) in row.iter().enumerate() {
        all &= stays(outcome(*code, access_at(what, lent, k), relation));
    }
    all
}

// Of no more numbers than there are codes: then no place of theirs has to be tested, and the compiler makes vector code of the loops.
#[inline(always)]
fn told_under(row: &[u8], lent: &[u8], what: Accesses, relation: NodeRelation) -> bool
    ensures { result ≡ bytes_stay what lent.now (node_relation relation) row.now }
{
    let size = row.len();
    if lent.len() < size {
        return told(row, lent, what, relation);
    }
    let numbers = &lent[..size];
    match relation {
        NodeRelation::Local => told(row, numbers, what, NodeRelation::Local),
        NodeRelation::Foreign => told(row, numbers, what, NodeRelation::Foreign),
    }
}

// Both passes ask it of a long row. It is a function by itself, so that its vectors take no registers from the recursion.
#[inline(never)]
pub(crate) fn long_stays(row: &[u8], lent: &[u8], what: Accesses, relation: NodeRelation) -> bool
    ensures { result ≡ bytes_stay what lent.now (node_relation relation) row.now }
{
    match what {
        Accesses::Each(kind) => long_under(row, kind, relation),
        Accesses::Told => told_under(row, lent, Accesses::Told, relation),
        Accesses::AtInit => told_under(row, lent, Accesses::AtInit, relation),
    }
}
