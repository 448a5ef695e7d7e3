#![tactic(auto)]

// Pointers by value, and bytes as words. mem.rs: `ThinPointer`, `Provenance`, `AbstractByte`.
// specs/Pointer.antt says what these values are in the definition.
ghost use Rattle.std.specs.Prelude.{◌≡◌};
ghost use Rattle.definition.specs.Notation.{any};
ghost use Rattle.definition.specs.Memory.{wrapping_offset};
ghost use Rattle.definition.specs.Request.{bad_byte};
ghost use Rattle.pointer.specs.Width.{width_of};
ghost use Rattle.pointer.specs.Pointer.{provenance_of, thin_pointer_of, back, ahead};
ghost use Rattle.pointer.specs.Byte.{initialised, has_provenance};

use crate::width::Width;

pub mod width;

// What a pointer may access: an allocation, through one of its nodes.
#[derive(Clone, Copy)]
pub struct Provenance {
    pub allocation: u32,
    pub node: u32,
}

// Without provenance it may access nothing.
#[derive(Clone, Copy)]
pub struct ThinPointer {
    pub addr: u64,
    pub provenance: Option<Provenance>,
}

impl ThinPointer {
    // Offsets a pointer in bytes. "A pointer offset, in the library a signed 64-bit number, does wrap at 2^64.", and so at any width.
    pub fn wrapping_offset(self, offset: i64, width: Width) -> ThinPointer
        ensures { thin_pointer_of result ≡ wrapping_offset (width_of width) (thin_pointer_of self) (back offset) (ahead offset) }
    {
        let addr = width.wrapped(self.addr.wrapping_add_signed(offset));
        ThinPointer { addr, ..self }
    }

    // The same address, with another provenance.
    pub fn with_provenance(self, provenance: Option<Provenance>) -> ThinPointer
        ensures { thin_pointer_of result ≡ record { address = (thin_pointer_of self).address; provenance = provenance_of provenance } }
    {
        ThinPointer { provenance, ..self }
    }
}

// How many bytes a signed number reaches back.
pub fn bytes_back(offset: i64) -> u64
    ensures { result ≡ back offset }
{
    offset.min(0).unsigned_abs()
}

// How many bytes a signed number reaches ahead.
pub fn bytes_ahead(offset: i64) -> u64
    ensures { result ≡ ahead offset }
{
    offset.max(0).unsigned_abs()
}

// ---- a byte is a word (specs/Byte.antt)
// A word that is no byte: "An uninitialised byte is 0; without provenance the middle fields are 0."
#[tactic(auto, unfolding(definition::specs::Request::bad_byte))]
fn bad_byte(word: u32) -> bool
    ensures { result ≡ bad_byte word }
{
    if is_initialised(word) {
        !has_provenance(word) && (word >> 8) % 0x40_0000 != 0
    } else {
        word != 0
    }
}

// Every byte is looked at, with no way out, as `any` has one: several are tested at a time.
pub fn any_bad_byte(bytes: &[u32]) -> bool
    ensures { result ≡ any bad_byte bytes.now }
{
    bytes.iter().fold(false, |bad, byte| bad | bad_byte(*byte))
}

fn is_initialised(word: u32) -> bool
    ensures { result ≡ initialised word }
{
    (word >> 31) % 2 == 1
}

fn has_provenance(word: u32) -> bool
    ensures { result ≡ has_provenance word }
{
    (word >> 30) % 2 == 1
}
