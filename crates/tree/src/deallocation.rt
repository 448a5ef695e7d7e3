// A deallocation: a write to all bytes, and the test for strong protectors on what it leaves.
ghost use Rattle.std.specs.Prelude.{◌≡◌, ℕ, ◌*◌, ◌≤◌, ◌<◌, length};
ghost use Rattle.std.proofs.Math.Option.{some};
ghost use Rattle.definition.specs.Notation.{any};
ghost use Rattle.definition.specs.Permission.AccessKind.{Write};
ghost use Rattle.std.specs.List.{list_any};
ghost use Rattle.definition.specs.Tree.{access_visit, visited};
ghost use Rattle.definition.specs.Memory.{node_prevents_deallocation};
ghost use Rattle.refusal.specs.Number.{refusal_of};
ghost use Rattle.permission.specs.Codes.{node_relation, next_code, prevents_code};
ghost use Rattle.visit.specs.Plan.{TellsPath, Roomy};
ghost use Rattle.tree.specs.Table.{HoldsAll, Some, Each};
ghost use Rattle.tree.specs.Requests.{Deallocated};

use crate::accesses::{apply_access, check_access};
use permission::{AccessKind, NodeRelation};
use refusal::Refusal;
use visit::{Accesses, Reach};

fn code_prevents_after_write(code: u8, relation: NodeRelation) -> bool
    ensures { result ≡ prevents_code (next_code (some Write) (node_relation relation) code) }
{
    permission::prevents_deallocation(permission::next(code, AccessKind::Write, relation))
}

// A code of a row prevents deallocation, as a write leaves it.
fn row_prevents_after_write(row: &[u8], relation: NodeRelation) -> bool
    ensures { result ≡ list_any (λ c. prevents_code (next_code (some Write) (node_relation relation) c)) row.now }
{
    row.iter()
        .any(|code| code_prevents_after_write(*code, relation))
}

// A node under a strong protector prevents deallocation, on the codes as a write to all bytes leaves them. What each node is to the written one, the
// plan of the write says.
fn strong_protector_in(
    plan: &[u16],
    parents: &[u16],
    protectors: &[u8],
    codes: &[u8],
    width: usize,
) -> bool
    requires some { Some (λ nodes. HoldsAll nodes width parents.now protectors.now codes.now) }
    requires roomy { Roomy parents.now plan.now }
    ensures { (node : ℕ) → TellsPath node parents.now plan.now
        → Each (λ nodes. HoldsAll nodes width parents.now protectors.now codes.now) (λ nodes. result ≡ any node_prevents_deallocation (visited (access_visit Write node 0 width) nodes)) }
{
    for n in 0..parents.len() {
        // strong: marks are numbers in the tables that C lends
        if protectors[n] == 2 {
            let start = n * width;
            let end = start + width;
            if row_prevents_after_write(&codes[start..end], visit::relation(plan, n)) {
                return true;
            }
        }
    }
    false
}

// The same, with a plan of the write.
fn strong_protector_after_write(
    parents: &[u16],
    protectors: &[u8],
    codes: &[u8],
    width: usize,
    node: usize,
) -> bool
    requires some { Some (λ nodes. HoldsAll nodes width parents.now protectors.now codes.now) }
    requires node_in_bounds { node < length parents.now }
    ensures { Each (λ nodes. HoldsAll nodes width parents.now protectors.now codes.now) (λ nodes. result ≡ any node_prevents_deallocation (visited (access_visit Write node 0 width) nodes)) }
{
    let mut scratch = [0u16; 4096];
    let size = 4 * parents.len();
    let v = Reach {
        node,
        spared: parents.len(),
        width,
        from: 0,
        len: width,
        what: Accesses::Each(AccessKind::Write),
    };
    visit::make_plan(parents, &mut scratch[..size], v);
    strong_protector_in(&scratch[..size], parents, protectors, codes, width)
}

// A deallocation's write to all bytes through a node, and the test for strong protectors: a refusal leaves the table as it was.
pub fn deallocate(
    parents: &[u16],
    protectors: &[u8],
    codes: &mut [u8],
    width: usize,
    node: usize,
) -> Result<(), Refusal>
    requires some { Some (λ nodes. HoldsAll nodes width parents.now protectors.now codes.old) }
    requires node_in_bounds { node < length parents.now }
    ensures { Each (λ nodes. HoldsAll nodes width parents.now protectors.now codes.old) (λ nodes. Deallocated node width nodes (refusal_of result) codes.new) }
{
    check_access(parents, codes, width, node, AccessKind::Write, 0, width)?;
    if strong_protector_after_write(parents, protectors, codes, width, node) {
        return Err(Refusal::StrongProtector);
    }
    apply_access(parents, codes, width, node, AccessKind::Write, 0, width);
    Ok(())
}
