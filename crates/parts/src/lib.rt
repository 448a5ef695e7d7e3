#![tactic(auto)]

// One allocation's parts of the buffers: where they lie. specs/Trees.antt says so in the definition's terms, and proofs/ that they hold its tree.
ghost use Rattle.std.specs.Prelude.{◌≡◌, ◌+◌, ◌*◌, ◌≤◌};
ghost use Rattle.parts.specs.Trees.{parts_in};

use tables::Allocation;

// From one place on and before another. The library's `Range` is not `Copy`, which the parts are.
#[derive(Clone, Copy)]
pub struct Span {
    pub start: usize,
    pub end: usize,
}

// Where its nodes lie, and their codes; a node's row is as wide as the allocation has bytes.
#[derive(Clone, Copy)]
pub struct Parts {
    pub nodes: Span,
    pub codes: Span,
    pub width: usize,
}

// Those of an allocation with this record.
pub fn parts_of(a: Allocation) -> Parts
    requires { (a.starts.nodes + a.nodes ≤ 1024) × (a.starts.codes + a.nodes * a.size ≤ 32768) }
    ensures { result ≡ parts_in a }
{
    Parts {
        nodes: Span {
            start: a.starts.nodes,
            end: a.starts.nodes + a.nodes,
        },
        codes: Span {
            start: a.starts.codes,
            end: a.starts.codes + a.nodes * a.size,
        },
        width: a.size,
    }
}
