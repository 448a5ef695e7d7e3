#![tactic(auto)]

// A visit of one allocation's tree over its tables: each node's parent, and a row of codes for its bytes. It goes to every node but one that is
// spared and its descendants, parents before children, children in the order they were made, each with its bytes ascending.
// It is made in two passes, a check and, if nothing is refused, the change. So a refusal leaves nothing to undo.
mod access;
mod apply_pass;
mod check_pass;
mod plan;
mod row;
mod staying;

ghost use Rattle.std.specs.Prelude.{◌≡◌};
ghost use Rattle.visit.specs.Walk.{together};

pub use access::settled;
pub use apply_pass::apply;
pub use check_pass::{check, check_lent};
use permission::AccessKind;
pub use plan::{make_plan, relation};

// The accesses of a visit: the same at each byte; or by a lent row of numbers, which tell each byte's access: 0 for none, 1 for a read, 2 for a
// write; or by a lent row of codes, as a retag reads the bytes.
#[derive(Clone, Copy, PartialEq, Eq)]
pub enum Accesses {
    Each(AccessKind),
    Told,
    AtInit,
}

// The accessed node; the node that is spared with its descendants (a number that no node has spares none); the width of a row; the visited
// bytes, `len` of them; and their accesses.
#[derive(Clone, Copy, PartialEq, Eq)]
pub struct Reach {
    pub node: usize,
    pub spared: usize,
    pub width: usize,
    pub from: usize,
    pub len: usize,
    pub what: Accesses,
}

// What a visit that is not refused does: every code stays, or a code changes. What the check pass promises of `Changes` is only that nothing is
// refused, which is all that the apply pass after it needs.
#[derive(Clone, Copy, PartialEq, Eq)]
pub enum Effect {
    Stays,
    Changes,
}

impl Effect {
    // Of this and what comes after it.
    fn and(self, later: Effect) -> Effect
        ensures { result ≡ together self later }
    {
        match later {
            Effect::Stays => self,
            Effect::Changes => Effect::Changes,
        }
    }
}
