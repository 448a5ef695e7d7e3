// One access to some bytes, through a node, as a load or a store makes it.
ghost use Rattle.std.specs.Prelude.{◌≡◌, ◌+◌, ◌≤◌, ◌<◌, length};
ghost use Rattle.definition.specs.Tree.{access_visit, visited};
ghost use Rattle.refusal.specs.Number.{refusal_of};
ghost use Rattle.permission.specs.Codes.{access_kind};
ghost use Rattle.tree.specs.Table.{rows_of, Holds, Some, Each};
ghost use Rattle.tree.specs.Requests.{Visited, Checked};

use permission::AccessKind;
use refusal::Refusal;
use visit::{Accesses, Effect, Reach};

// What an access to `len` bytes from `from` on, through a node, comes to.
pub(crate) fn check_access(
    parents: &[u16],
    codes: &[u8],
    width: usize,
    node: usize,
    kind: AccessKind,
    from: usize,
    len: usize,
) -> Result<Effect, Refusal>
    requires some { Some (λ nodes. Holds nodes width parents.now codes.now) }
    requires node_in_bounds { (node < length parents.now) × (from + len ≤ width) }
    ensures { Each (λ nodes. Holds nodes width parents.now codes.now) (λ nodes. Checked (access_visit (access_kind kind) node from len) nodes result) }
{
    let v = Reach {
        node,
        spared: parents.len(),
        width,
        from,
        len,
        what: Accesses::Each(kind),
    };
    visit::check(parents, codes, codes, v)
}

// The access made.
pub(crate) fn apply_access(
    parents: &[u16],
    codes: &mut [u8],
    width: usize,
    node: usize,
    kind: AccessKind,
    from: usize,
    len: usize,
)
    requires some { Some (λ nodes. Holds nodes width parents.now codes.old) }
    requires node_in_bounds { (node < length parents.now) × (from + len ≤ width) }
    ensures { Each (λ nodes. Holds nodes width parents.now codes.old) (λ nodes. codes.new ≡ rows_of (visited (access_visit (access_kind kind) node from len) nodes)) }
{
    let v = Reach {
        node,
        spared: parents.len(),
        width,
        from,
        len,
        what: Accesses::Each(kind),
    };
    let none = [0u8; 1];
    visit::apply(parents, codes, &none, v);
}

// A load's or a store's access: the first refusal in visiting order, with the table as it was; or none, with every visited code as the access leaves it.
pub fn access(
    parents: &[u16],
    codes: &mut [u8],
    width: usize,
    node: usize,
    kind: AccessKind,
    from: usize,
    len: usize,
) -> Result<(), Refusal>
    requires some { Some (λ nodes. Holds nodes width parents.now codes.old) }
    requires node_in_bounds { (node < length parents.now) × (from + len ≤ width) }
    ensures { Each (λ nodes. Holds nodes width parents.now codes.old) (λ nodes. Visited (access_visit (access_kind kind) node from len) nodes (refusal_of result) codes.new) }
{
    if check_access(parents, codes, width, node, kind, from, len)? == Effect::Changes {
        apply_access(parents, codes, width, node, kind, from, len);
    }
    Ok(())
}
