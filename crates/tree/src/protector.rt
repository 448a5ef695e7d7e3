// The release of a protected node.
ghost use Rattle.std.specs.Prelude.{◌≡◌, not, ◌++◌, map, ◌+◌, ◌*◌, ◌≤◌, ◌<◌, length, take, drop};
ghost use Rattle.std.specs.List.{list_any};
ghost use Rattle.definition.specs.Tree.{node_at};
ghost use Rattle.definition.specs.Memory.Liveness.{Live, Dead};
ghost use Rattle.definition.specs.Frame.{lacks_protector};
ghost use Rattle.refusal.specs.Number.{refusal_of};
ghost use Rattle.permission.specs.Codes.{is_protected_code, maybe_access, unprotected_code};
ghost use Rattle.tree.specs.Table.{Holds, HoldsMarks, HoldsAll, Some, Each};
ghost use Rattle.visit.specs.Walk.{row_at, with_row_at};
ghost use Rattle.tree.specs.Requests.{Ended, Released, access_number, end_number};

use permission::AccessKind;
use refusal::Refusal;
use visit::{Accesses, Effect, Reach};

fn has_unprotected(row: &[u8]) -> bool
    ensures { result ≡ list_any (λ c. not (is_protected_code c)) row.now }
{
    row.iter().any(|code| !permission::is_protected(*code))
}

// An access as the number that tells it to a visit: the row of them is lent as bytes, in fixed memory.
fn access_number(access: Option<AccessKind>) -> u8
    ensures { result ≡ access_number (maybe_access access) }
{
    match access {
        None => 0,
        Some(AccessKind::Read) => 1,
        Some(AccessKind::Write) => 2,
    }
}

// The access that the end of each byte's protector makes, worked out once, and not at each node that is visited.
fn tell_accesses(row: &[u8], told: &mut [u8])
    requires { length row.now ≤ length told.old }
    ensures { told.new ≡ map end_number row.now ++ drop (length row.now) told.old }
{
    for (k, code) in row.iter().enumerate() {
        told[k] = access_number(permission::end_access(*code));
    }
}

fn unprotect_row(row: &mut [u8])
    ensures { row.new ≡ map unprotected_code row.old }
{
    for code in row.iter_mut() {
        *code = permission::unprotect(*code);
    }
}

fn unprotect_node(codes: &mut [u8], width: usize, node: usize)
    requires { node * width + width ≤ length codes.old }
    ensures { codes.new ≡ with_row_at width node (map unprotected_code (row_at width node codes.old)) codes.old }
{
    let start = node * width;
    let end = start + width;
    unprotect_row(&mut codes[start..end]);
}

// The test of `NotProtected`: the node is not marked protected, or its row holds an unprotected code.
fn lacks_protector(protectors: &[u8], codes: &[u8], width: usize, node: usize) -> bool
    requires some { Some (λ nodes. HoldsMarks nodes width protectors.now codes.now) }
    requires node_in_bounds { node < length protectors.now }
    ensures { Each (λ nodes. HoldsMarks nodes width protectors.now codes.now) (λ nodes. result ≡ lacks_protector (node_at nodes node)) }
{
    let start = node * width;
    let end = start + width;
    protectors[node] == 0 || has_unprotected(&codes[start..end])
}

// The end of a node's protector, on a live allocation: the first refusal of its accesses, with the codes as they were; or none, with the node unprotected
// and the accesses made. The lent row tells the accesses. They do not reach the node: what the check told holds once its row is unprotected.
fn end_protector(
    parents: &[u16],
    codes: &mut [u8],
    lent: &[u8],
    width: usize,
    node: usize,
) -> Result<(), Refusal>
    requires some { Some (λ nodes. Holds nodes width parents.now codes.old) }
    requires node_in_bounds { (node < length parents.now) × (0 < node) × (take width lent.now ≡ map end_number (row_at width node codes.old)) }
    ensures { Each (λ nodes. Holds nodes width parents.now codes.old) (λ nodes. Ended node nodes (refusal_of result) codes.new) }
{
    let v = Reach {
        node,
        spared: node, // and its descendants
        width,
        from: 0,
        len: width,
        what: Accesses::Told,
    };
    let v = visit::settled(lent, v);
    let effect = visit::check_lent(parents, codes, lent, v)?;
    unprotect_node(codes, width, node);
    if effect == Effect::Changes {
        visit::apply(parents, codes, lent, v);
    }
    Ok(())
}

// The release of a node of a live allocation: the first refusal, with marks and codes as they were; or none, with the node
// unprotected and the accesses of its protector's end made, which reach every node but it and its descendants. The lent row is for work.
pub fn release(
    parents: &[u16],
    protectors: &mut [u8],
    codes: &mut [u8],
    lent: &mut [u8],
    width: usize,
    node: usize,
) -> Result<(), Refusal>
    requires some { Some (λ nodes. HoldsAll nodes width parents.now protectors.old codes.old) }
    requires node_in_bounds { (node < length parents.now) × (width ≤ length lent.old) }
    ensures lent_after { lent.new ≡ map end_number (row_at width node codes.old) ++ drop width lent.old }
    ensures each { Each (λ nodes. HoldsAll nodes width parents.now protectors.old codes.old) (λ nodes. Released Live node nodes (refusal_of result) protectors.new codes.new) }
{
    let start = node * width;
    let end = start + width;
    tell_accesses(&codes[start..end], lent);
    if lacks_protector(protectors, codes, width, node) {
        return Err(Refusal::NotProtected);
    }
    end_protector(parents, codes, lent, width, node)?;
    protectors[node] = 0;
    Ok(())
}

// The release of a node of a dead allocation: `NotProtected` with the codes as they were; or none with its row unprotected. Its mark stays.
pub fn release_dead(
    protectors: &[u8],
    codes: &mut [u8],
    width: usize,
    node: usize,
) -> Result<(), Refusal>
    requires some { Some (λ nodes. HoldsMarks nodes width protectors.now codes.old) }
    requires node_in_bounds { node < length protectors.now }
    ensures { Each (λ nodes. HoldsMarks nodes width protectors.now codes.old) (λ nodes. Released Dead node nodes (refusal_of result) protectors.now codes.new) }
{
    if lacks_protector(protectors, codes, width, node) {
        return Err(Refusal::NotProtected);
    }
    unprotect_node(codes, width, node);
    Ok(())
}
