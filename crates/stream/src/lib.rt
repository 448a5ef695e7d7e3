#![tactic(auto)]

// The bytes of a run: their words, and how many bytes the next request has. proofs/Cuts.antt shows that a run cut so is the definition's.
ghost use Rattle.std.specs.Prelude.{◌≡◌, ◌∷◌, ◌+◌, ◌-◌, ◌*◌, ◌≤◌, ◌<◌, length, drop};
ghost use Rattle.definition.specs.Run.{words_of};
ghost use Rattle.stream.specs.Stream.{WordsRead, HeadOf, CutOf, moved};

use request::Request;

// The word whose bytes start at a place, "stored most significant byte first".
pub fn word_at(bytes: &[u8], at: usize) -> u32
    requires { at + 4 ≤ length bytes.now }
    ensures { words_of (drop at bytes.now) ≡ result ∷ words_of (drop (at + 4) bytes.now) }
{
    u32::from_be_bytes([bytes[at], bytes[at + 1], bytes[at + 2], bytes[at + 3]])
}

// The words of these bytes, put to the front of `words`; and how many they are. One to three bytes at the end make none.
pub fn read_words(bytes: &[u8], words: &mut [u32]) -> usize
    requires { length bytes.now < 4 * length words.old + 4 }
    ensures { WordsRead bytes.now words.old result words.new }
{
    let (chunks, _) = bytes.as_chunks::<4>();
    for (i, chunk) in chunks.iter().enumerate() {
        words[i] = u32::from_be_bytes(*chunk);
    }
    chunks.len()
}

// The next request of a run: its fields, where there are bytes for them, and how many bytes it has. No `Option` of fields: `CutOf`, which other
// crates cite, has them as they stand.
#[derive(Clone, Copy)]
pub struct Cut {
    pub fields: Request,
    pub size: usize,
}

fn head_of(bytes: &[u8]) -> Request
    requires { 16 ≤ length bytes.now }
    ensures { HeadOf bytes.now result }
{
    Request::of(&[
        word_at(bytes, 0),
        word_at(bytes, 4),
        word_at(bytes, 8),
        word_at(bytes, 12),
    ])
}

// How many words behind its fourth a request of the program has at most.
const MOST: usize = 4096;

// By the bytes at hand. Of a request that announces more, the first four are taken: "in the program" it falls under 2, as one that is cut short
// does.
pub fn next_cut(bytes: &[u8]) -> Cut
    ensures { CutOf bytes.now result }
{
    if bytes.len() < 16 {
        return Cut {
            fields: Request::of(&[0; 4]),
            size: 16,
        };
    }
    let fields = head_of(bytes);
    let announced = fields.following_length();
    let taken = if announced > MOST { 0 } else { announced };
    Cut {
        fields,
        size: 16 + 4 * taken,
    }
}

// Copies the bytes from one place up to another to the front; and how many they are.
pub fn move_to_front(bytes: &mut [u8], from: usize, end: usize) -> usize
    requires { (from ≤ end) × (end ≤ length bytes.old) }
    ensures { (result ≡ end - from) × (bytes.new ≡ moved from (end - from) bytes.old) }
{
    bytes.copy_within(from..end, 0);
    end - from
}
