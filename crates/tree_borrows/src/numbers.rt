// Pointers and answers as numbers.
ghost use Rattle.std.specs.Prelude.{ℕ, ◌≡◌, List};
ghost use Rattle.answer.specs.Answer.{answer_of};
ghost use Rattle.tree_borrows.specs.Numbers.{ReadsPointer, ReadsSettings, reply_of, loaded_words, made_of, list_reply_of};

use answer::Answer;
use frames::Entry;
use library_frames::retags::{RetagOutcome, RetagSettings};
use pointer::{Provenance, ThinPointer};
use refusal::Refusal;
use run::Answered;

// A pointer. It has provenance (1) or not (0), and then it names no allocation or node: both are 0.
#[repr(C)]
#[derive(Clone, Copy)]
pub struct Pointer {
    pub address: u64,
    pub provenance: u8,
    pub allocation: u32,
    pub node: u32,
}

// What is retagged: extra (0 shared reference, 1 mutable reference, 2 box, 3 raw, 4 function, 5 vtable pointer), and the flags, 0 or 1.
#[repr(C)]
#[derive(Clone, Copy)]
pub struct Settings {
    pub extra: u32,
    pub function_entry: u8,
    pub unpin: u8,
    pub freeze: u8,
}

// An answer.
#[repr(C)]
#[derive(Clone, Copy)]
pub struct Reply {
    // document 01's number, 0 for an accepted request
    pub refusal: u8,
    // what the next two are: 0 nothing, 1 a pointer's allocation and node, 2 the start and length of the loaded words in the lent data,
    // 3 the allocation that 25 names
    pub gives: u8,
    pub first: u64,
    pub second: u64,
}

// A retag's answer, and how many entries the frame then has.
#[repr(C)]
#[derive(Clone, Copy)]
pub struct RetagReply {
    pub reply: Reply,
    pub count: usize,
}

// What a list of requests comes to: a refusal of the whole (1), or how far its answers reach in the lent buffer, whether all of them are there (1)
// or not (0), and the width that it leaves, as a number of bits (0 where it is refused).
#[repr(C)]
#[derive(Clone, Copy)]
pub struct ListReply {
    pub refusal: u8,
    pub whole: u8,
    pub at: usize,
    pub width: u64,
}

// With the entry that is put into the frame's list. For none the place is behind the list.
#[derive(Clone, Copy)]
pub struct RetagMade {
    pub answer: RetagReply,
    pub at: usize,
    pub entry: Entry,
}

// 2: a flag that is neither 0 nor 1, or a name without provenance.
#[derive(Clone, Copy)]
pub struct Malformed;

impl TryFrom<Pointer> for ThinPointer {
    type Error = Malformed;

    ghost try_from_gives = { ReadsPointer };

    #[tactic(auto, unfolding(crate::specs::Numbers::bad_pointer))]
    fn try_from(p: Pointer) -> Result<ThinPointer, Malformed> {
        let provenance = match p.provenance {
            0 if p.allocation == 0 && p.node == 0 => None,
            1 => Some(Provenance {
                allocation: p.allocation,
                node: p.node,
            }),
            _ => return Err(Malformed),
        };
        Ok(ThinPointer {
            addr: p.address,
            provenance,
        })
    }
}

impl TryFrom<Settings> for RetagSettings {
    type Error = Malformed;

    ghost try_from_gives = { ReadsSettings };

    fn try_from(s: Settings) -> Result<RetagSettings, Malformed> {
        if s.function_entry > 1 || s.unpin > 1 || s.freeze > 1 {
            return Err(Malformed);
        }
        Ok(RetagSettings {
            extra: s.extra,
            function_entry: s.function_entry == 1,
            unpin: s.unpin == 1,
            freeze: s.freeze == 1,
        })
    }
}

// ---- what a reply gives, as C names it
const POINTER: u8 = 1;

const LOADED: u8 = 2;

const LEAK: u8 = 3;

// The reply of a request that is accepted and gives nothing.
const ACCEPTED: Reply = Reply {
    refusal: 0,
    gives: 0,
    first: 0,
    second: 0,
};

impl From<Answer> for Reply {
    ghost from_gives = { λ answer reply. reply ≡ reply_of answer };

    fn from(answer: Answer) -> Reply {
        match answer {
            Answer::Refused(refusal) => Reply {
                refusal,
                ..ACCEPTED
            },
            Answer::Leak(allocation) => Reply {
                refusal: Refusal::MemoryLeak.number(),
                gives: LEAK,
                first: u64::from(allocation),
                ..ACCEPTED
            },
            Answer::Accepted | Answer::Pointer(None) => ACCEPTED,
            Answer::Pointer(Some(provenance)) => Reply {
                gives: POINTER,
                first: u64::from(provenance.allocation),
                second: u64::from(provenance.node),
                ..ACCEPTED
            },
            Answer::Words { start, len } => Reply {
                gives: LOADED,
                first: start as u64,
                second: len as u64,
                ..ACCEPTED
            },
        }
    }
}

// An answer that hands out the words which a reply names.
pub(crate) fn loaded(reply: Reply) -> Answer
    ensures { (words : List ℕ) → (answer_of result words).words ≡ loaded_words reply words }
{
    if reply.gives == LOADED {
        return Answer::Words {
            start: reply.first as usize,
            len: reply.second as usize,
        };
    }
    Answer::Accepted
}

impl From<RetagOutcome> for RetagMade {
    ghost from_gives = { λ outcome made. made ≡ made_of outcome };

    fn from(outcome: RetagOutcome) -> RetagMade {
        RetagMade {
            answer: RetagReply {
                reply: Reply::from(outcome.answer.answer),
                count: outcome.answer.count,
            },
            at: outcome.at,
            entry: outcome.entry,
        }
    }
}

impl From<Result<Answered, Refusal>> for ListReply {
    ghost from_gives = { λ outcome reply. reply ≡ list_reply_of outcome };

    fn from(outcome: Result<Answered, Refusal>) -> ListReply {
        match outcome {
            Ok(answered) => ListReply {
                refusal: 0,
                whole: u8::from(answered.written.whole),
                at: answered.written.at,
                width: answered.width.bits(),
            },
            Err(refusal) => ListReply {
                refusal: refusal.number(),
                whole: 0,
                at: 0,
                width: 0,
            },
        }
    }
}
