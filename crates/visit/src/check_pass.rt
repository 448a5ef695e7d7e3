// The check pass: what the accesses of a visit come to, by recursion over the tree.
ghost use Rattle.std.specs.Prelude.{ℕ, ◌*◌, ◌≤◌, ◌<◌, List, length};
ghost use Rattle.visit.specs.Walk.{Ready, ToldOf, nodes_from, subtree};
ghost use Rattle.visit.specs.Plan.{VisitFrom};

use crate::access::any_access;
use crate::plan::{first_child, make_plan, next_sibling, relation};
use crate::row::check_at;
use crate::{Effect, Reach};
use refusal::Refusal;

// At a node, its descendants, and the siblings made after it with theirs. Children come in the order they were made; of a last sibling, its children
// are what is left, so that a chain needs no stack. The loop follows the plan's links and counts nothing; the number of later nodes falls. The plan is handed on as a part of itself: a slice
// that is handed on whole is copied as one, and the copy waits for its address and its length to be written.
fn check_from(
    plan: &[u16],
    codes: &[u8],
    lent: &[u8],
    v: Reach,
    first: usize,
) -> Result<Effect, Refusal>
    requires { (ps : List ℕ) × VisitFrom v ps plan.now codes.now first }
    ensures { (ps : List ℕ) → VisitFrom v ps plan.now codes.now first
        → ToldOf v ps lent.now codes.now (nodes_from v.spared ps first) result }
{
    let size = plan.len();
    let mut effect = Effect::Stays;
    let mut m = first;
    loop {
        effect = effect.and(check_at(codes, lent, v, m, relation(plan, m))?);
        let child = first_child(plan, m);
        let sibling = next_sibling(plan, m);
        if sibling == 0 {
            if child == 0 {
                return Ok(effect);
            }
            m = child;
        } else {
            if child != 0 {
                effect = effect.and(check_from(&plan[..size], codes, lent, v, child)?);
            }
            m = sibling;
        }
    }
}

// With an array for the plan, which has four places for each node.
fn check_sized<const N: usize>(
    parents: &[u16],
    codes: &[u8],
    lent: &[u8],
    v: Reach,
) -> Result<Effect, Refusal>
    requires room { (4 * length parents.now ≤ N) × (N ≤ 4096) }
    requires ready { Ready v parents.now codes.now × (0 < v.spared) }
    ensures { ToldOf v parents.now lent.now codes.now (subtree v.spared 0 parents.now) result }
{
    let mut scratch = [0u16; N];
    let size = 4 * parents.len();
    make_plan(parents, &mut scratch[..size], v);
    check_from(&scratch[..size], codes, lent, v, 0)
}

// What a visit comes to. The plan of a smaller tree does with a shorter array.
pub fn check(parents: &[u16], codes: &[u8], lent: &[u8], v: Reach) -> Result<Effect, Refusal>
    requires { Ready v parents.now codes.now × (0 < v.spared) }
    ensures { ToldOf v parents.now lent.now codes.now (subtree v.spared 0 parents.now) result }
{
    match parents.len() {
        0..=16 => check_sized::<64>(parents, codes, lent, v),
        17..=128 => check_sized::<512>(parents, codes, lent, v),
        _ => check_sized::<4096>(parents, codes, lent, v),
    }
}

// The same of a visit by a lent row.
pub fn check_lent(parents: &[u16], codes: &[u8], lent: &[u8], v: Reach) -> Result<Effect, Refusal>
    requires { Ready v parents.now codes.now × (0 < v.spared) }
    ensures { ToldOf v parents.now lent.now codes.now (subtree v.spared 0 parents.now) result }
{
    if !any_access(v.what, lent, v.len) {
        return Ok(Effect::Stays);
    }
    check(parents, codes, lent, v)
}
