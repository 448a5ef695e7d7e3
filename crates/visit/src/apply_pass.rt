// The apply pass: the change of a visit, by recursion over the tree as the check goes.
ghost use Rattle.std.specs.Prelude.{◌≡◌, List, ℕ, ◌*◌, ◌≤◌, ◌<◌, length};
ghost use Rattle.visit.specs.Walk.{Ready, nodes_from, subtree, walk_after};
ghost use Rattle.visit.specs.Plan.{VisitFrom};

use crate::Reach;
use crate::plan::{first_child, make_plan, next_sibling, relation};
use crate::row::apply_at;

// The rows of a node, its descendants, and the siblings made after it with theirs. The loop follows links, as that of the check.
fn apply_from(plan: &[u16], codes: &mut [u8], lent: &[u8], v: Reach, first: usize)
    requires { (ps : List ℕ) × VisitFrom v ps plan.now codes.old first }
    ensures { (ps : List ℕ) → VisitFrom v ps plan.now codes.old first
        → codes.new ≡ walk_after v ps lent.now (nodes_from v.spared ps first) codes.old }
{
    let size = plan.len();
    let mut m = first;
    loop {
        apply_at(codes, lent, v, m, relation(plan, m));
        let child = first_child(plan, m);
        let sibling = next_sibling(plan, m);
        if sibling == 0 {
            if child == 0 {
                return;
            }
            m = child;
        } else {
            if child != 0 {
                apply_from(&plan[..size], codes, lent, v, child);
            }
            m = sibling;
        }
    }
}

// With an array for the plan, which has four places for each node.
fn apply_sized<const N: usize>(parents: &[u16], codes: &mut [u8], lent: &[u8], v: Reach)
    requires room { (4 * length parents.now ≤ N) × (N ≤ 4096) }
    requires ready { Ready v parents.now codes.old × (0 < v.spared) }
    ensures { codes.new ≡ walk_after v parents.now lent.now (subtree v.spared 0 parents.now) codes.old }
{
    let mut scratch = [0u16; N];
    let size = 4 * parents.len();
    make_plan(parents, &mut scratch[..size], v);
    apply_from(&scratch[..size], codes, lent, v, 0);
}

// Every row as a visit leaves it. The size is chosen as by `check`, once more: a closure takes no const parameter.
pub fn apply(parents: &[u16], codes: &mut [u8], lent: &[u8], v: Reach)
    requires { Ready v parents.now codes.old × (0 < v.spared) }
    ensures { codes.new ≡ walk_after v parents.now lent.now (subtree v.spared 0 parents.now) codes.old }
{
    match parents.len() {
        0..=16 => apply_sized::<64>(parents, codes, lent, v),
        17..=128 => apply_sized::<512>(parents, codes, lent, v),
        _ => apply_sized::<4096>(parents, codes, lent, v),
    }
}
