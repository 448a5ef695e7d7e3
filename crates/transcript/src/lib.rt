#![tactic(auto)]

// Answers written one behind the other into a lent buffer. specs/Transcript.antt says in which words.
ghost use Rattle.std.specs.Prelude.{◌≡◌, List, [], ◌∷◌, ◌++◌, ℕ, ◌<◌, ◌^◌, length};
ghost use Rattle.answer.specs.Answer.{answer_of};
ghost use Rattle.transcript.specs.Transcript.{heading, answer_words, WrittenTo};

use answer::Answer;
use pointer::Provenance;

// Where the next word goes, and whether all words so far found room. No `Option` of a place: after a drop the place still says where the text
// ends (`WrittenTo`).
#[derive(Clone, Copy)]
pub struct Written {
    pub at: usize,
    pub whole: bool,
}

#[tactic(auto, using(crate::proofs::Writing::written_none))]
pub fn nothing_written() -> Written
    ensures { (out : List ℕ) → WrittenTo [] out out result }
{
    Written { at: 0, whole: true }
}

// A word for which there is no room is dropped.
fn put(out: &mut [u32], w: Written, word: u32) -> Written
    ensures { (text before : List ℕ) → WrittenTo text before out.old w
        → WrittenTo (text ++ (word ∷ [])) before out.new result }
{
    if w.at < out.len() {
        out[w.at] = word;
        Written { at: w.at + 1, ..w }
    } else {
        Written { whole: false, ..w }
    }
}

// The words of a text, each by itself.
fn put_each(out: &mut [u32], w: Written, words: &[u32]) -> Written
    ensures { (text before : List ℕ) → WrittenTo text before out.old w
        → WrittenTo (text ++ words.now) before out.new result }
{
    let mut next = w;
    for word in words {
        next = put(out, next, *word);
    }
    next
}

// What stands before an answer's loaded words, of which there are `count`. The second word says what is named: 0 nothing, 1 a pointer, 3 a leak.
fn heading_of(answer: Answer, count: u32) -> [u32; 5]
    ensures { (words : List ℕ) → result ≡ heading (answer_of answer words).refusal (answer_of answer words).names count }
{
    match answer {
        Answer::Refused(n) => [n as u32, 0, 0, 0, count],
        Answer::Leak(allocation) => [25, 3, allocation, 0, count],
        Answer::Pointer(Some(Provenance { allocation, node })) => [0, 1, allocation, node, count],
        Answer::Pointer(None) => [0, 0, 0, 0, count],
        Answer::Accepted | Answer::Words { .. } => [0, 0, 0, 0, count],
    }
}

// Writes an answer behind the others. The number of its loaded words has to fit a word; there are at most as many as `words` has.
pub fn put_answer(out: &mut [u32], w: Written, answer: Answer, words: &[u32]) -> Written
    requires { length (answer_of answer words.now).words < 2 ^ 32 }
    ensures { (text before : List ℕ) → WrittenTo text before out.old w
        → WrittenTo (text ++ answer_words (answer_of answer words.now)) before out.new result }
{
    let loaded = answer::loaded_words(answer, words);
    let head = heading_of(answer, loaded.len() as u32);
    let behind_head = put_each(out, w, &head);
    put_each(out, behind_head, loaded)
}
