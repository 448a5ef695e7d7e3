// The line of an answer.
ghost use Rattle.std.specs.Prelude.{◌∷◌, [], ◌+◌, ◌*◌, ◌≤◌, length};
ghost use Rattle.definition.specs.Memory.Named.{Pointer};
ghost use Rattle.definition.specs.Output.{decimal, pointed, given, ended, answer_line};
ghost use Rattle.pointer.specs.Pointer.{provenance_of};
ghost use Rattle.report.specs.Page.{Puts};
ghost use Rattle.report.specs.Written.{WrittenInside};
ghost use Rattle.report.specs.Answer.{giving};

use crate::page::Page;
use answer::Answer;
use pointer::Provenance;

impl Page<'_> {
    // The last field is the allocation that 25 names, and the line's end.
    #[tactic(auto, using(crate::proofs::Lines::numbers))]
    fn put_leak(&mut self, a: u64)
        requires { self.old.at + 22 ≤ length self.old.out.now }
        ensures puts { Puts self.old (ended (decimal a ∷ [])) self.new }
        ensures fits { self.new.at ≤ length self.new.out.now }
    {
        self.put_number(a);
        self.put_byte(b'\n');
    }

    // "allocation.node"
    #[tactic(auto, using(crate::proofs::Lines::numbers))]
    fn put_provenance(&mut self, provenance: Provenance)
        requires { self.old.at + 43 ≤ length self.old.out.now }
        ensures puts { Puts self.old (ended (pointed (record { allocation = provenance.allocation; node = provenance.node }) ∷ [])) self.new }
        ensures fits { self.new.at ≤ length self.new.out.now }
    {
        self.put_number(provenance.allocation as u64);
        self.put_byte(b'.');
        self.put_decimal(provenance.node as u64);
        self.put_byte(b'\n');
    }

    // "A pointer without provenance prints `-`", as an answer that gives nothing does.
    #[tactic(auto, using(crate::proofs::Lines::numbers))]
    fn put_given(&mut self, answer: Answer, loaded: &[u32])
        requires { self.old.at + 43 + 9 * length loaded.now ≤ length self.old.out.now }
        ensures puts { Puts self.old (ended (given (giving answer loaded.now).names loaded.now)) self.new }
        ensures fits { self.new.at ≤ length self.new.out.now }
    {
        match answer {
            Answer::Leak(a) => self.put_leak(a as u64),
            Answer::Pointer(Some(provenance)) => self.put_provenance(provenance),
            Answer::Pointer(None) => self.put_words(loaded),
            Answer::Refused(_) | Answer::Accepted | Answer::Words { .. } => self.put_words(loaded),
        }
    }
}

// "request index, refusal or 0, then allocation.node, loaded words, the allocation that 25 names, or `-`." `loaded` is what
// `load_view` hands out: none but for a load.
#[tactic(auto, using(crate::proofs::Lines::numbers))]
pub fn answer_line(out: &mut [u8], at: usize, index: u64, answer: Answer, loaded: &[u32]) -> usize
    requires { at + 128 + 9 * length loaded.now ≤ length out.old }
    ensures { WrittenInside out.old at (answer_line index (giving answer loaded.now)) out.new result }
{
    let mut page = Page { out, at };
    page.put_decimal(index);
    page.put_number(answer.refusal() as u64);
    page.put_given(answer, loaded);
    page.at
}
