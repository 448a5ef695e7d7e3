// The codes of a row under the accesses of a visit: what they come to, and the codes that they leave.
ghost use Rattle.std.specs.Prelude.{◌≡◌, [], ◌+◌, ◌*◌, ◌≤◌, length};
ghost use Rattle.permission.specs.Codes.{node_relation};
ghost use Rattle.visit.specs.Walk.{ToldBytes, ToldRow, bytes_after, row_after, row_at, with_row_at};
ghost use Rattle.visit.specs.declared.Accesses.TheVariants.{Each};

use crate::access::{access_at, outcome};
use crate::staying::{long_stays, short_stays};
use crate::{Accesses, Effect, Reach};
use permission::{AccessKind, NodeRelation};
use refusal::Refusal;

// ---- the visited bytes of a row, one by one. Those under one access have loops by themselves, of which the compiler makes a loop for each access
// and relation: with one loop for all accesses whole runs are up to 9 % slower.
fn check_each(row: &[u8], kind: AccessKind, relation: NodeRelation) -> Result<Effect, Refusal>
    ensures { ToldBytes (Each kind) [] (node_relation relation) row.now result }
{
    let mut effect = Effect::Stays;
    for code in row.iter() {
        if permission::transition(*code, kind, relation)?.is_some() {
            effect = Effect::Changes;
        }
    }
    Ok(effect)
}

// By `permission::next` at each byte whole runs are up to 4 % slower: that loop is no vector code.
fn apply_each(row: &mut [u8], kind: AccessKind, relation: NodeRelation)
    ensures { row.new ≡ bytes_after (Each kind) [] (node_relation relation) row.old }
{
    for code in row.iter_mut() {
        match permission::transition(*code, kind, relation) {
            Ok(outcome) => {
                if let Some(next) = outcome {
                    *code = next;
                }
            }
            Err(_) => {}
        }
    }
}

// Under accesses of their own. It is inlined with what its callers hand on as constants, so that there is a loop for each of them.
#[inline(always)]
fn check_told(
    row: &[u8],
    lent: &[u8],
    what: Accesses,
    relation: NodeRelation,
) -> Result<Effect, Refusal>
    ensures { ToldBytes what lent.now (node_relation relation) row.now result }
{
    let mut effect = Effect::Stays;
    for (k, code) in row.iter().enumerate() {
        if outcome(*code, access_at(what, lent, k), relation)?.is_some() {
            effect = Effect::Changes;
        }
    }
    Ok(effect)
}

// Of as many numbers as there are codes no place has to be tested.
#[inline(always)]
fn check_under(
    row: &[u8],
    lent: &[u8],
    what: Accesses,
    relation: NodeRelation,
) -> Result<Effect, Refusal>
    ensures { ToldBytes what lent.now (node_relation relation) row.now result }
{
    let size = row.len();
    if lent.len() < size {
        return check_told(row, lent, what, relation);
    }
    let numbers = &lent[..size];
    match relation {
        NodeRelation::Local => check_told(row, numbers, what, NodeRelation::Local),
        NodeRelation::Foreign => check_told(row, numbers, what, NodeRelation::Foreign),
    }
}

// Functions by themselves, which take no registers from the recursion. A row under one access goes to `check_each` and does not come here.
#[inline(never)]
fn check_bytes(
    row: &[u8],
    lent: &[u8],
    what: Accesses,
    relation: NodeRelation,
) -> Result<Effect, Refusal>
    ensures { ToldBytes what lent.now (node_relation relation) row.now result }
{
    match what {
        Accesses::Each(_) => check_told(row, lent, what, relation),
        Accesses::Told => check_under(row, lent, Accesses::Told, relation),
        Accesses::AtInit => check_under(row, lent, Accesses::AtInit, relation),
    }
}

#[inline(never)]
fn apply_bytes(row: &mut [u8], lent: &[u8], what: Accesses, relation: NodeRelation)
    ensures { row.new ≡ bytes_after what lent.now (node_relation relation) row.old }
{
    for (k, code) in row.iter_mut().enumerate() {
        if let Some(kind) = access_at(what, lent, k) {
            *code = permission::next(*code, kind, relation);
        }
    }
}

// ---- a row
// A row that does not stay is gone over byte by byte. The slices of a long one are handed on as parts of themselves, as in the recursion.
fn check_row(
    row: &[u8],
    lent: &[u8],
    what: Accesses,
    relation: NodeRelation,
) -> Result<Effect, Refusal>
    ensures { ToldBytes what lent.now (node_relation relation) row.now result }
{
    let size = row.len();
    if 16 <= size {
        let told = lent.len();
        if long_stays(&row[..size], &lent[..told], what, relation) {
            return Ok(Effect::Stays);
        }
    }
    if short_stays(row, what, relation) {
        return Ok(Effect::Stays);
    }
    match what {
        Accesses::Each(kind) => check_each(row, kind, relation),
        Accesses::Told | Accesses::AtInit => check_bytes(row, lent, what, relation),
    }
}

// A long row of which every code stays is left alone.
fn apply_row(row: &mut [u8], lent: &[u8], what: Accesses, relation: NodeRelation)
    ensures { row.new ≡ bytes_after what lent.now (node_relation relation) row.old }
{
    if 16 <= row.len() {
        let told = lent.len();
        if long_stays(row, &lent[..told], what, relation) {
            return;
        }
    }
    match what {
        Accesses::Each(kind) => apply_each(row, kind, relation),
        Accesses::Told | Accesses::AtInit => apply_bytes(row, lent, what, relation),
    }
}

// ---- the row of node n in a table: its visited bytes are the part that is handed on
pub(crate) fn check_at(
    codes: &[u8],
    lent: &[u8],
    v: Reach,
    n: usize,
    relation: NodeRelation,
) -> Result<Effect, Refusal>
    requires { (n * v.width + v.width ≤ length codes.now) × (v.from + v.len ≤ v.width) }
    ensures { ToldRow v lent.now (node_relation relation) (row_at v.width n codes.now) result }
{
    let start = n * v.width + v.from;
    let end = start + v.len;
    check_row(&codes[start..end], lent, v.what, relation)
}

pub(crate) fn apply_at(codes: &mut [u8], lent: &[u8], v: Reach, n: usize, relation: NodeRelation)
    requires { (n * v.width + v.width ≤ length codes.old) × (v.from + v.len ≤ v.width) }
    ensures { codes.new ≡ with_row_at v.width n (row_after v lent.now (node_relation relation) (row_at v.width n codes.old)) codes.old }
{
    let start = n * v.width + v.from;
    let end = start + v.len;
    apply_row(&mut codes[start..end], lent, v.what, relation);
}
