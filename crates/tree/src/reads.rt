// A retag's reads: each byte inside is read, or not, as its start code tells.
ghost use Rattle.std.specs.Prelude.{◌≡◌, map, ◌+◌, ◌≤◌, ◌<◌, length};
ghost use Rattle.definition.specs.Permission.{permission};
ghost use Rattle.definition.proofs.Retags.{reads_refusal};
ghost use Rattle.refusal.specs.Number.{refusal_of};
ghost use Rattle.tree.specs.Table.{Holds, Some, Each};
ghost use Rattle.tree.specs.Requests.{ReadsMade};

use crate::accesses::check_access;
use refusal::Refusal;
use visit::{Accesses, Effect, Reach};

// The first refusal of a retag's reads, if there is one: byte by byte over the whole tree, each on the tree as it stands.
fn first_refused_read(
    parents: &[u16],
    codes: &[u8],
    inside: &[u8],
    width: usize,
    node: usize,
    from: usize,
) -> Result<(), Refusal>
    requires some { Some (λ nodes. Holds nodes width parents.now codes.now) }
    requires node_in_bounds { (node < length parents.now) × (from + length inside.now ≤ width) }
    ensures { Each (λ nodes. Holds nodes width parents.now codes.now) (λ nodes. refusal_of result ≡ reads_refusal node from (map permission inside.now) nodes) }
{
    for (k, code) in inside.iter().enumerate() {
        if let Some(kind) = permission::init_access(*code) {
            check_access(parents, codes, width, node, kind, from + k, 1)?;
        }
    }
    Ok(())
}

// A retag's reads through a node, of the bytes from `from` on whose start codes are `inside`, but for Cell: the first refusal, byte by byte over the
// whole tree, with the table as it was; or none, with every visited code as the reads leave it. One visit of all bytes tells whether there is a refusal;
// where there is, which comes first is looked for.
pub fn make_reads(
    parents: &[u16],
    codes: &mut [u8],
    inside: &[u8],
    width: usize,
    node: usize,
    from: usize,
) -> Result<(), Refusal>
    requires some { Some (λ nodes. Holds nodes width parents.now codes.old) }
    requires node_in_bounds { (node < length parents.now) × (from + length inside.now ≤ width) }
    ensures { Each (λ nodes. Holds nodes width parents.now codes.old) (λ nodes. ReadsMade node from (map permission inside.now) nodes (refusal_of result) codes.new) }
{
    let v = Reach {
        node,
        spared: parents.len(),
        width,
        from,
        len: inside.len(),
        what: Accesses::AtInit,
    };
    let v = visit::settled(inside, v);
    match visit::check_lent(parents, codes, inside, v) {
        Ok(Effect::Stays) => Ok(()),
        Ok(Effect::Changes) => {
            visit::apply(parents, codes, inside, v);
            Ok(())
        }
        Err(_) => first_refused_read(parents, codes, inside, width, node, from),
    }
}
