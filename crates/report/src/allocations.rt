// The lines of the memory: per allocation `a`, `d`, and its nodes. The buffers come one by one, as in `library`.
ghost use Rattle.std.specs.Prelude.{◌≡◌, ◌∷◌, [], ◌++◌, ◌+◌, ◌≤◌, length};
ghost use Rattle.definition.specs.Memory.{Memory, allocation_at};
ghost use Rattle.definition.specs.Output.{ascii, decimal, ended, liveness_name, kind_name, allocation_lines, memory_lines};
ghost use Rattle.tables.specs.Decoding.{liveness, allocation_kind};
ghost use Rattle.tables.specs.Held.{buffers, Holds, WellFormed};
ghost use Rattle.report.specs.Page.{HasRoom, Puts};
ghost use Rattle.report.specs.Written.{Written};
ghost use Rattle.report.specs.Memory.{Nodes, LinesFit, allocation_of, record_line, words_line};

use crate::page::Page;
use tables::Allocation;

// "live or dead", behind the field's space. This and the next by the number that the record holds (`tables::Allocation`).
#[tactic(auto, unfolding(definition::specs::Output::liveness_name))]
fn liveness_name(state: u64) -> &'static [u8]
    ensures { result.now ≡ ascii " " ++ liveness_name (liveness state) }
{
    match state {
        1 => b" live",
        _ => b" dead",
    }
}

// "kind in lower case", behind the field's space.
#[tactic(auto, unfolding(definition::specs::Output::kind_name))]
fn kind_name(kind: u64) -> &'static [u8]
    ensures { result.now ≡ ascii " " ++ kind_name (allocation_kind kind) }
{
    match kind {
        1 => b" heap",
        2 => b" global",
        3 => b" function",
        4 => b" vtable",
        _ => b" stack",
    }
}

impl Page<'_> {
    // The line `a`: "allocation, live or dead, kind in lower case, address, size, exponent".
    #[tactic(auto, using(crate::proofs::Lines::fields))]
    fn record_line(&mut self, a: u64, x: Allocation)
        requires { HasRoom self.old (record_line a x) }
        ensures { Puts self.old (record_line a x) self.new }
    {
        self.put_byte(b'a');
        self.put_number(a);
        self.put_bytes(liveness_name(x.state));
        self.put_bytes(kind_name(x.kind));
        self.put_number(x.address);
        self.put_number(x.size as u64);
        self.put_number(x.exponent);
        self.put_byte(b'\n');
    }

    // The line `d`.
    #[tactic(auto, using(crate::proofs::Lines::fields))]
    fn words_line(&mut self, a: u64, words: &[u32])
        requires { HasRoom self.old (words_line a words.now) }
        ensures { Puts self.old (words_line a words.now) self.new }
    {
        self.put_byte(b'd');
        self.put_number(a);
        self.put_words(words);
    }

    // One allocation: its record, and its parts of the other buffers.
    #[tactic(auto, using(crate::proofs::Parts::parts))]
    fn put_allocation(
        &mut self,
        a: u64,
        x: Allocation,
        words: &[u32],
        parents: &[u16],
        protectors: &[u8],
        codes: &[u8],
    )
        requires words_len { length words.now ≡ x.size }
        requires nodes { Nodes (length words.now) parents.now protectors.now codes.now }
        requires room { HasRoom self.old (allocation_lines a (allocation_of x words.now parents.now protectors.now codes.now)) }
        ensures { Puts self.old (allocation_lines a (allocation_of x words.now parents.now protectors.now codes.now)) self.new }
    {
        self.record_line(a, x);
        self.words_line(a, words);
        self.node_lines(a, words.len(), parents, protectors, codes);
    }

    // Allocation a of the memory that the buffers hold.
    fn allocation_lines(
        &mut self,
        allocs: &[u64],
        parents: &[u16],
        protectors: &[u8],
        words: &[u32],
        codes: &[u8],
        a: usize,
    )
        requires { (m : Memory) × LinesFit m (buffers allocs.now parents.now protectors.now words.now codes.now) a self.old.out.now self.old.at }
        ensures { (m : Memory)
            → Holds m (buffers allocs.now parents.now protectors.now words.now codes.now)
            → Puts self.old (allocation_lines a (allocation_at m a)) self.new }
    {
        let x = tables::allocation_at(allocs, a);
        let start = tables::starts_at(allocs, a);
        let end = tables::starts_at(allocs, a + 1);
        self.put_allocation(
            a as u64,
            x,
            &words[start.words..end.words],
            &parents[start.nodes..end.nodes],
            &protectors[start.nodes..end.nodes],
            &codes[start.codes..end.codes],
        );
    }
}

// The whole memory that the buffers hold: "Per allocation: `a`, `d`, then nodes in order of making."
pub fn memory_lines(
    out: &mut [u8],
    at: usize,
    allocs: &[u64],
    parents: &[u16],
    protectors: &[u8],
    words: &[u32],
    codes: &[u8],
) -> usize
    requires well_formed { WellFormed (buffers allocs.now parents.now protectors.now words.now codes.now) }
    requires at_in_bounds { at + 0x28000 ≤ length out.old }
    ensures { (m : Memory)
        → Holds m (buffers allocs.now parents.now protectors.now words.now codes.now)
        → Written out.old at (memory_lines 0 m) out.new result }
{
    let mut page = Page { out, at };
    for a in 0..tables::made_count(allocs) {
        page.allocation_lines(allocs, parents, protectors, words, codes, a);
    }
    page.at
}
