// The plan of a visit: for each node its first child, its next sibling, both without the spared node (0 for none: the root is nobody's child),
// and whether it is on the path from the accessed node to the root. A node has four places, of which the last is not used: they are found by a
// shift. The plan is made once for a visit.
ghost use Rattle.std.specs.Prelude.{◌≡◌, ◌+◌, ◌*◌, ◌≤◌, ◌<◌, length, get_or};
ghost use Rattle.definition.proofs.Trees.{Parents};
ghost use Rattle.permission.specs.Codes.{node_relation};
ghost use Rattle.visit.specs.Plan.{relation_in, linked_in, Planned, Zeros, Roomy};

use crate::Reach;
use permission::NodeRelation;

pub(crate) fn first_child(plan: &[u16], n: usize) -> usize
    requires { (4 * n + 2 < length plan.now) × (length plan.now ≤ 4096) }
    ensures { result ≡ get_or plan.now (4 * n) 0 }
{
    usize::from(plan[4 * n])
}

pub(crate) fn next_sibling(plan: &[u16], n: usize) -> usize
    requires { (4 * n + 2 < length plan.now) × (length plan.now ≤ 4096) }
    ensures { result ≡ get_or plan.now (4 * n + 1) 0 }
{
    usize::from(plan[4 * n + 1])
}

// What a node is to the accessed one.
pub fn relation(plan: &[u16], n: usize) -> NodeRelation
    requires { (4 * n + 2 < length plan.now) × (length plan.now ≤ 4096) }
    ensures { node_relation result ≡ relation_in plan.now n }
{
    if plan[4 * n + 2] == 0 {
        NodeRelation::Foreign
    } else {
        NodeRelation::Local
    }
}

// Node m in front of the children of its parent that are linked; the spared one is passed by.
fn link(plan: &mut [u16], parent: usize, m: usize, spared: usize)
    requires { (parent < m) × (4 * m + 2 < length plan.old) × (length plan.old ≤ 4096) }
    ensures { plan.new ≡ linked_in spared parent m plan.old }
{
    plan[4 * m + 1] = plan[4 * parent];
    if m != spared {
        plan[4 * parent] = m as u16;
    }
}

// The plan, in a part of zeros that has four places for each node: made from the last node down, each linked in front of those made after it. The
// path is met on the way: from the accessed node on, the next node of it is a parent, and so further down.
pub fn make_plan(parents: &[u16], plan: &mut [u16], v: Reach)
    requires parents { Parents parents.now × (v.node < length parents.now) }
    requires roomy { Roomy parents.now plan.old × Zeros plan.old }
    ensures { Planned v parents.now plan.new }
{
    let mut on = v.node;
    for m in (1..parents.len()).rev() {
        let parent = usize::from(parents[m]);
        link(plan, parent, m, v.spared);
        if m == on {
            plan[4 * m + 2] = 1;
            on = parent;
        }
    }
    plan[2] = 1;
}
