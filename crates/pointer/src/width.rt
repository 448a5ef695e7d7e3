// How wide the pointers of a target are. Document 02, M-110: "Make the width a parameter, 16, 32 or 64 bits".
ghost use Rattle.std.specs.Prelude.{◌≡◌, ◌-◌, ◌%◌, leb, nat_le};
ghost use Rattle.definition.specs.Notation.{any};
ghost use Rattle.definition.specs.Width.{bits, addresses, pointer_bytes};
ghost use Rattle.definition.specs.Request.{position, is_too_high, is_too_far};
ghost use Rattle.pointer.specs.Width.{width_of, is_width, width_at, IsWidthOf};

#[derive(Clone, Copy)]
pub enum Width {
    Bits16 = 16,
    Bits32 = 32,
    Bits64 = 64,
}

// A number that is no width.
#[derive(Clone, Copy, Debug, PartialEq, Eq)]
pub struct NoWidth(pub u64);

// The width with so many bits.
impl TryFrom<u64> for Width {
    type Error = NoWidth;

    ghost try_from_gives = { IsWidthOf };

    fn try_from(number: u64) -> Result<Self, NoWidth> {
        match number {
            16 => Ok(Width::Bits16),
            32 => Ok(Width::Bits32),
            64 => Ok(Width::Bits64),
            _ => Err(NoWidth(number)),
        }
    }
}

impl Width {
    pub fn bits(self) -> u64
        ensures { result ≡ bits (width_of self) }
    {
        self as u64
    }

    pub fn last_address(self) -> u64
        ensures { result ≡ addresses (width_of self) - 1 }
    {
        match self {
            Width::Bits16 => u16::MAX as u64,
            Width::Bits32 => u32::MAX as u64,
            Width::Bits64 => u64::MAX,
        }
    }

    // How many bytes a pointer has in memory.
    fn pointer_bytes(self) -> u32
        ensures { result ≡ pointer_bytes (width_of self) }
    {
        self as u32 / 8
    }

    // An address in the bits that the width has.
    pub(crate) fn wrapped(self, address: u64) -> u64
        ensures { result ≡ address % addresses (width_of self) }
    {
        match self {
            Width::Bits16 => address % 0x1_0000,
            Width::Bits32 => address % 0x1_0000_0000,
            Width::Bits64 => address,
        }
    }

    // "An address .. too big for the width"
    pub fn is_too_high(self, address: u64) -> bool
        ensures { result ≡ is_too_high (width_of self) address }
    {
        address > self.last_address()
    }
}

fn position_from(word: u32, bound: u32) -> bool
    ensures { result ≡ nat_le bound (position word) }
{
    bound <= (word >> 27) % 8
}

// With no way out either.
fn any_position_from(bytes: &[u32], bound: u32) -> bool
    ensures { result ≡ any (λ b. leb bound (position b)) bytes.now }
{
    bytes
        .iter()
        .fold(false, |far, byte| far | position_from(*byte, bound))
}

// "An .. position too big for the width". At 64 bits there is none.
pub fn any_far_byte(bytes: &[u32], width: Width) -> bool
    ensures { result ≡ any (is_too_far (width_of width)) bytes.now }
{
    match width {
        Width::Bits64 => false,
        _ => any_position_from(bytes, width.pointer_bytes()),
    }
}

// ---- the width as the number of its bits
pub fn is_width(number: u64) -> bool
    ensures { result ≡ is_width number }
{
    Width::try_from(number).is_ok()
}

// 64 bits for a number that is no width.
pub fn width_at(number: u64) -> Width
    ensures { width_of result ≡ width_at number }
{
    Width::try_from(number).unwrap_or(Width::Bits64)
}
