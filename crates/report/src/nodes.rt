// The lines `n`: an allocation's nodes.
ghost use Rattle.std.specs.Prelude.{◌≡◌, ◌∷◌, [], ◌++◌, map, ℕ, ◌<◌, length};
ghost use Rattle.definition.specs.Permission.{permission};
ghost use Rattle.definition.specs.Valid.{All};
ghost use Rattle.definition.specs.Output.{ascii, ended, parent_name, protector_name, codes as codesText, node_line, node_lines};
ghost use Rattle.tables.specs.Decoding.{protector, nodes_in};
ghost use Rattle.report.specs.Page.{HasRoom, Puts};
ghost use Rattle.report.specs.Memory.{node_of, Nodes};

use crate::page::{Page, digit_of};

// "protector (no, weak, strong)", behind the field's space, by the number that the buffer holds.
#[tactic(auto, unfolding(definition::specs::Output::protector_name))]
fn protector_name(mark: u8) -> &'static [u8]
    ensures { result.now ≡ ascii " " ++ protector_name (protector mark) }
{
    match mark {
        1 => b" weak",
        2 => b" strong",
        _ => b" no",
    }
}

impl Page<'_> {
    // "parent (`-` for the root)"
    #[tactic(auto, unfolding(definition::specs::Output::parent_name))]
    fn put_parent(&mut self, node: usize, parent: u64)
        requires { HasRoom self.old (ascii " " ++ parent_name node parent) }
        ensures { Puts self.old (ascii " " ++ parent_name node parent) self.new }
    {
        if node == 0 {
            self.put_bytes(b" -");
        } else {
            self.put_number(parent);
        }
    }

    // "one code per byte (`-` for none)"
    fn put_codes(&mut self, row: &[u8])
        requires all { All (λ (c : ℕ). c < 15) row.now }
        requires room { HasRoom self.old (ascii " " ++ codesText (map permission row.now)) }
        ensures { Puts self.old (ascii " " ++ codesText (map permission row.now)) self.new }
    {
        if row.is_empty() {
            self.put_bytes(b" -");
            return;
        }
        self.put_byte(b' ');
        for code in row {
            self.put_byte(digit_of(*code));
        }
    }

    // One node, with its number in allocation a.
    #[tactic(auto, using(crate::proofs::Lines::fields), unfolding(definition::specs::Output::node_line))]
    fn node_line(&mut self, a: u64, node: usize, parent: u64, mark: u8, row: &[u8])
        requires all { All (λ (c : ℕ). c < 15) row.now }
        requires room { HasRoom self.old (node_line a node (node_of parent mark row.now)) }
        ensures { Puts self.old (node_line a node (node_of parent mark row.now)) self.new }
    {
        self.put_byte(b'n');
        self.put_number(a);
        self.put_number(node as u64);
        self.put_parent(node, parent);
        self.put_bytes(protector_name(mark));
        self.put_codes(row);
        self.put_byte(b'\n');
    }

    // All nodes of allocation a, whose rows have `size` codes.
    pub(crate) fn node_lines(
        &mut self,
        a: u64,
        size: usize,
        parents: &[u16],
        protectors: &[u8],
        codes: &[u8],
    )
        requires nodes { Nodes size parents.now protectors.now codes.now }
        requires room { HasRoom self.old (node_lines a 0 (nodes_in (length parents.now) size parents.now protectors.now codes.now)) }
        ensures { Puts self.old (node_lines a 0 (nodes_in (length parents.now) size parents.now protectors.now codes.now)) self.new }
    {
        let mut start = 0;
        for node in 0..parents.len() {
            let row = &codes[start..start + size];
            self.node_line(a, node, parents[node] as u64, protectors[node], row);
            start += size;
        }
    }
}
