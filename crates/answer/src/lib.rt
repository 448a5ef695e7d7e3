#![tactic(auto)]

// What a request comes to. specs/Answer.antt gives the definition's answer for every case.
ghost use Rattle.std.specs.Prelude.{◌≡◌, List, ℕ, min, length, take, drop};
ghost use Rattle.definition.specs.Memory.{refused_with};
ghost use Rattle.refusal.specs.Number.{number, refusal_of};
ghost use Rattle.answer.specs.Answer.{answer_of, word_address, HandsOut, reply_to};
ghost use Rattle.answer.specs.declared.Answer.TheVariants.{Refused};
ghost use Rattle.answer.specs.Answer.Gives.{Nothing};

use pointer::Provenance;
use refusal::Refusal;

// A refusal stays a number, in an enum with what is given and in no `Result`: `answer_of` gives the definition's refusal of every number, and
// `Served`, `Replied` and `ListRan` are said over it.
#[derive(Clone, Copy)]
pub enum Answer {
    // with document 01's number
    Refused(u8),
    // 25, with the allocation that it names
    Leak(u32),
    Accepted,
    // what an allocation or a retag gives
    Pointer(Option<Provenance>),
    // what a load gives: a part of the lent data
    Words { start: usize, len: usize },
}

impl Answer {
    // Document 01's number, 0 for an accepted request.
    pub fn refusal(self) -> u8
        ensures { (words : List ℕ) → result ≡ (answer_of self words).refusal }
    {
        match self {
            Answer::Refused(n) => n,
            Answer::Leak(_) => Refusal::MemoryLeak.number(),
            Answer::Accepted | Answer::Pointer(_) | Answer::Words { .. } => 0,
        }
    }
}

impl From<Refusal> for Answer {
    ghost from_gives = { λ refusal answer. answer ≡ Refused (number refusal) };

    fn from(refusal: Refusal) -> Self {
        Answer::Refused(refusal.number())
    }
}

// The answer of a request that gives nothing.
impl From<Result<(), Refusal>> for Answer {
    ghost from_gives = { λ outcome answer. answer ≡ reply_to Nothing (refused_with (refusal_of outcome)) };

    fn from(outcome: Result<(), Refusal>) -> Self {
        match outcome {
            Ok(()) => Answer::Accepted,
            Err(refusal) => Answer::from(refusal),
        }
    }
}

// The same by document 01's number: 0 is no refusal.
pub fn refused_with(refusal: u8) -> Answer
    ensures { result ≡ reply_to Nothing (refused_with refusal) }
{
    if refusal == 0 {
        return Answer::Accepted;
    }
    Answer::Refused(refusal)
}

// ---- what is loaded
// `len` words from `start` on, as far as there are any.
fn words_at<'d>(words: &'d [u32], start: usize, len: usize) -> &'d [u32]
    ensures { (result.now ≡ take len (drop start words.now)) × (result.ref_ptr ≡ word_address words.entry (min start (length words.now))) }
{
    let from = start.min(words.len());
    let end = from + len.min(words.len() - from);
    &words[from..end]
}

// The words that a load gives, where they lie in the data; and none for any other answer.
pub fn loaded_words<'d>(answer: Answer, words: &'d [u32]) -> &'d [u32]
    ensures { HandsOut answer words.entry result }
{
    match answer {
        Answer::Words { start, len } => words_at(words, start, len),
        _ => words_at(words, 0, 0),
    }
}
