#![tactic(auto)]

// One request: its words to its fields, and refusal 2. Document 01: "A run and its requests".
// specs/Fields.antt says what these values are in the definition.
ghost use Rattle.std.specs.Prelude.{◌≡◌, true, not, eqb, List, ℕ, ◌<◌, ◌*◌, ◌+◌, ◌%◌, ◌^◌, length, get_or, drop};
ghost use Rattle.definition.specs.Notation.{any};
ghost use Rattle.definition.specs.Frame.{State};
ghost use Rattle.definition.specs.Request as definition;
ghost use Rattle.definition.specs.Request.{request_kinds, request, pointer, bit, function_entry, unpin, freeze, frame_number, layout_length};
ghost use Rattle.definition.specs.Request.{is_safe, is_pinned, adds_no_node, safe_pointer, entry_protector, protector_of, bytes_back, bytes_ahead, following_length, is_miscounted};
ghost use Rattle.definition.specs.Request.{chosen_width, is_too_far, stored_bytes, is_too_big};
ghost use Rattle.definition.specs.Request.{any_name, stray_name, bad_settings, bad_metadata, bad_retag, bad_call, is_malformed};
ghost use Rattle.definition.specs.Request.Kind.{Allocate, Deallocate, Load, Store, Retag, NewCall, EndCall, Dereferenceable, LeakCheck, Empty, Unused};
ghost use Rattle.definition.specs.Memory.{Answer};
ghost use Rattle.definition.specs.Run.{width_by, width_after};
ghost use Rattle.pointer.specs.Pointer.{thin_pointer_of, back, ahead};
ghost use Rattle.pointer.specs.Width.{width_of};
ghost use Rattle.permission.specs.Codes as permission;
ghost use Rattle.request.specs.Fields.{kind_of, request_of, fields_of, any_field, open_in, frame_used};

use permission::{Protected, SafePointer};
use pointer::width::{Width, any_far_byte};
use pointer::{Provenance, ThinPointer};

#[derive(Clone, Copy, PartialEq, Eq)]
pub enum Kind {
    Allocate,
    Deallocate,
    Load,
    Store,
    Retag,
    NewCall,
    EndCall,
    Dereferenceable,
    SignedDereferenceable,
    LeakCheck,
    Empty,
    Unused,
}

// The fields of a request's first four words. The words that follow stay where they are lent (`following`). No `Option` of a provenance: an
// allocation and a node without one are read all the same, and fall under 2 (`stray_name`).
#[derive(Clone, Copy)]
pub struct Request {
    pub kind: Kind,
    pub allocation: u32,
    pub node: u32,
    pub has_provenance: bool,
    pub exponent: u32,
    pub extra: u32,
    pub address: u64,
    pub fourth: u32,
}

// ---- the words
// A word that is missing reads as 0; `is_miscounted` finds that it is missing.
fn word_at(words: &[u32], i: usize) -> u32
    ensures { result ≡ get_or words.now i 0 }
{
    words.get(i).copied().unwrap_or(0)
}

// Every number has a kind.
impl From<u32> for Kind {
    ghost from_gives = { λ number kind. kind_of kind ≡ get_or request_kinds number Unused };

    fn from(number: u32) -> Kind {
        match number {
            0 => Kind::Allocate,
            1 => Kind::Deallocate,
            2 => Kind::Load,
            3 => Kind::Store,
            4 => Kind::Retag,
            5 => Kind::NewCall,
            6 => Kind::EndCall,
            7 => Kind::Dereferenceable,
            8 => Kind::SignedDereferenceable,
            9 => Kind::LeakCheck,
            15 => Kind::Empty,
            _ => Kind::Unused,
        }
    }
}

fn address_of(high: u32, low: u32) -> u64
    ensures { result ≡ high * 2 ^ 32 + low }
{
    high as u64 * 0x1_0000_0000 + low as u64
}

// The words behind the fourth: a store's bytes, a retag's layout.
pub fn following(words: &[u32]) -> &[u32]
    ensures { result.now ≡ drop 4 words.now }
{
    words.get(4..).unwrap_or(&[])
}

// The safe pointer of a number, read where the pointer is safe. No `From`: the type is another crate's.
pub fn safe_pointer(extra: u32) -> SafePointer
    ensures { (q : definition.Request) → q.extra ≡ extra → permission.safe_pointer result ≡ safe_pointer q }
{
    match extra {
        0 => SafePointer::SharedRef,
        1 => SafePointer::MutableRef,
        _ => SafePointer::Box,
    }
}

// "Box at function entry is weak, references strong."
pub fn entry_protector(p: SafePointer) -> Protected
    ensures { permission.protector result ≡ entry_protector (permission.safe_pointer p) }
{
    match p {
        SafePointer::SharedRef | SafePointer::MutableRef => Protected::Strong,
        SafePointer::Box => Protected::Weak,
    }
}

impl Request {
    #[tactic(auto, unfolding(definition::specs::Request::request))]
    pub fn of(words: &[u32]) -> Request
        ensures { request_of result (drop 4 words.now) ≡ request words.now }
    {
        let first = word_at(words, 0);
        Request {
            kind: Kind::from(first >> 28),
            allocation: (first >> 21) % 0x80,
            node: (first >> 9) % 0x1000,
            has_provenance: (first >> 8) % 2 == 1,
            exponent: (first >> 3) % 0x20,
            extra: first % 8,
            address: address_of(word_at(words, 1), word_at(words, 2)),
            fourth: word_at(words, 3),
        }
    }

    pub fn pointer(self) -> ThinPointer
        ensures { thin_pointer_of result ≡ pointer (fields_of self) }
    {
        let provenance = if self.has_provenance {
            Some(Provenance {
                allocation: self.allocation,
                node: self.node,
            })
        } else {
            None
        };
        ThinPointer {
            addr: self.address,
            provenance,
        }
    }

    // ---- a retag's fourth word
    // Bit n, counted from the least significant.
    fn bit(self, n: u32) -> bool
        requires { n < 32 }
        ensures { result ≡ bit n self.fourth }
    {
        (self.fourth >> n) % 2 == 1
    }

    fn function_entry(self) -> bool
        ensures { result ≡ function_entry (fields_of self) }
    {
        self.bit(31)
    }

    fn unpin(self) -> bool
        ensures { result ≡ unpin (fields_of self) }
    {
        self.bit(30)
    }

    pub fn freeze(self) -> bool
        ensures { result ≡ freeze (fields_of self) }
    {
        self.bit(29)
    }

    fn zero_bit(self) -> bool
        ensures { result ≡ bit 28 self.fourth }
    {
        self.bit(28)
    }

    pub fn frame_number(self) -> usize
        ensures { result ≡ frame_number (fields_of self) }
    {
        ((self.fourth >> 23) % 0x20) as usize
    }

    fn layout_length(self) -> usize
        ensures { result ≡ layout_length (fields_of self) }
    {
        (self.fourth % 0x80_0000) as usize
    }

    // ---- a retag's pointer
    // A reference or a box.
    fn is_safe(self) -> bool
        ensures { result ≡ is_safe (fields_of self) }
    {
        self.extra < 3
    }

    // "a mutable reference that isn't unpin"
    fn is_pinned(self) -> bool
        ensures { result ≡ is_pinned (fields_of self) }
    {
        self.extra == 1 && !self.unpin()
    }

    pub fn adds_no_node(self) -> bool
        ensures { result ≡ adds_no_node (fields_of self) }
    {
        !self.is_safe() || self.is_pinned()
    }

    pub fn protector(self) -> Protected
        ensures { permission.protector result ≡ protector_of (fields_of self) }
    {
        if self.function_entry() {
            entry_protector(safe_pointer(self.extra))
        } else {
            Protected::No
        }
    }

    // ---- a signed length, "in two's complement"
    pub fn signed_length(self) -> i64
        ensures { (back result ≡ bytes_back self.fourth) × (ahead result ≡ bytes_ahead self.fourth) }
    {
        self.fourth.cast_signed() as i64
    }

    // ---- how many words follow the fourth, and which frame is used
    #[tactic(auto, unfolding(definition::specs::Request::following_length))]
    pub fn following_length(self) -> usize
        ensures { ((ws : List ℕ) → result ≡ following_length (request_of self ws)) × (result < 2 ^ 32) }
    {
        match self.kind {
            Kind::Store => self.fourth as usize,
            Kind::Retag if self.is_safe() => self.layout_length(),
            _ => 0,
        }
    }

    // New calls, end calls and retags at function entry use a frame. The caller looks it up and says whether it is open (`is_malformed`).
    pub fn frame_used(self) -> usize
        ensures { (result ≡ frame_used self) × (result < 32) }
    {
        match self.kind {
            Kind::Retag => self.frame_number(),
            _ => (self.fourth % 32) as usize,
        }
    }

    // The width that an emptying chooses, read where its number is one of the list. No `From`: the type is another crate's.
    fn chosen_width(self) -> Width
        ensures { width_of result ≡ chosen_width (fields_of self) }
    {
        match self.extra {
            0 => Width::Bits16,
            1 => Width::Bits32,
            _ => Width::Bits64,
        }
    }

    // The width that a run has after this request: an emptying that is not refused chooses it.
    #[tactic(auto, unfolding(definition::specs::Run::width_after))]
    pub fn width_after(self, refused: bool, width: Width) -> Width
        ensures { (a : Answer) (ws : List ℕ) → refused ≡ not (eqb a.refusal 0) → width_of result ≡ width_after a (request_of self ws) (width_of width) }
    {
        match self.kind {
            Kind::Empty if !refused => self.chosen_width(),
            _ => width,
        }
    }
}

// "Input that ends inside a request falls under 2", and so does a list's request that has more words than it announces. Of the request that has
// `count` words behind its fourth.
pub fn is_miscounted(q: Request, count: usize) -> bool
    ensures { (ws : List ℕ) → request_of q (drop 4 ws) ≡ request ws → length ws ≡ 4 + count → result ≡ is_miscounted ws }
{
    count != q.following_length()
}

// ---- 2, field by field
fn any_name(q: Request) -> bool
    ensures { result ≡ any_name (fields_of q) }
{
    q.allocation != 0 || q.node != 0 || q.has_provenance
}

fn stray_name(q: Request) -> bool
    ensures { result ≡ stray_name (fields_of q) }
{
    !q.has_provenance && (q.allocation != 0 || q.node != 0)
}

fn any_field(q: Request) -> bool
    ensures { result ≡ any_field (fields_of q) }
{
    any_name(q) || q.exponent != 0 || q.extra != 0 || q.address != 0
}

#[tactic(auto, unfolding(definition::specs::Request::bad_settings))]
fn bad_settings(q: Request, opened: bool) -> bool
    ensures { (s : State) (ws : List ℕ) → open_in s (frame_number (fields_of q)) ≡ opened → result ≡ bad_settings s (request_of q ws) }
{
    let bad_frame = if q.function_entry() {
        !opened
    } else {
        q.frame_number() != 0
    };
    q.zero_bit() || bad_frame
}

#[tactic(auto, unfolding(definition::specs::Request::bad_metadata))]
pub fn bad_metadata(following: &[u32]) -> bool
    ensures { result ≡ bad_metadata following.now }
{
    let Some(&word) = following.first() else {
        return false;
    };
    let kind = word >> 30;
    kind == 3 || kind != 1 && word % 0x4000_0000 != 0
}

#[tactic(auto, unfolding(definition::specs::Request::bad_retag))]
fn bad_retag(q: Request, following: &[u32], opened: bool) -> bool
    ensures { (s : State) → open_in s (frame_number (fields_of q)) ≡ opened → result ≡ bad_retag s (request_of q following.now) }
{
    if q.is_safe() {
        bad_settings(q, opened) || !q.is_pinned() && bad_metadata(following)
    } else {
        q.fourth != 0
    }
}

fn bad_call(q: Request) -> bool
    ensures { result ≡ bad_call (fields_of q) }
{
    any_field(q) || q.fourth >= 32
}

// ---- 2, kind by kind
// Whether the request falls under 2, its number of words and the width apart. `opened` says whether the frame that it uses is open.
#[tactic(auto, unfolding(definition::specs::Request::is_malformed))]
pub fn is_malformed(q: Request, following: &[u32], opened: bool) -> bool
    ensures { (s : State) → open_in s (frame_used q) ≡ opened → result ≡ is_malformed (kind_of q.kind) s (request_of q following.now) }
{
    match q.kind {
        Kind::Allocate => any_name(q) || q.exponent > 29 || q.extra > 4,
        Kind::Deallocate => stray_name(q) || q.exponent > 29 || q.extra > 4,
        Kind::Load => stray_name(q) || q.exponent > 29 || q.extra != 0,
        Kind::Store => {
            stray_name(q) || q.exponent > 29 || q.extra != 0 || pointer::any_bad_byte(following)
        }
        Kind::Retag => {
            stray_name(q) || q.exponent != 0 || q.extra > 5 || bad_retag(q, following, opened)
        }
        Kind::NewCall => bad_call(q) || opened,
        Kind::EndCall => bad_call(q) || !opened,
        Kind::Dereferenceable | Kind::SignedDereferenceable => {
            stray_name(q) || q.exponent != 0 || q.extra != 0
        }
        Kind::LeakCheck => any_field(q) || q.fourth != 0,
        Kind::Empty => {
            any_name(q) || q.exponent != 0 || q.extra > 2 || q.address != 0 || q.fourth != 0
        }
        Kind::Unused => true,
    }
}

// ---- 2 by the width
// "An address or position too big for the width falls under 2."
#[tactic(auto, unfolding(definition::specs::Request::is_too_big))]
pub fn is_too_big(q: Request, following: &[u32], width: Width) -> bool
    ensures { result ≡ is_too_big (width_of width) (request_of q following.now) }
{
    width.is_too_high(q.address) || q.kind == Kind::Store && any_far_byte(following, width)
}
