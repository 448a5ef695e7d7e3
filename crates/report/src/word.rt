// Words in hexadecimal: the eight digits of a word at once, each in a byte of one number, in the order of memory: the first digit is the lowest byte.
ghost use Rattle.std.specs.Prelude.{◌≡◌, ◌++◌, ◌+◌, ◌≤◌, length};
ghost use Rattle.definition.specs.Output.{ascii, digit, word, words, ended};
ghost use Rattle.report.specs.Page.{HasRoom, Puts};
ghost use Rattle.report.specs.Lanes.{byte_lanes, digit_lanes};

use crate::page::Page;

// The bytes of a word, 16 bits each, the highest byte in the lowest bits. The other three are there three times, 24 bits apart (this sum is one
// multiplication), and the mask leaves each of them once.
fn bytes_apart(w: u32) -> u64
    ensures { result ≡ byte_lanes w }
{
    let low = (w % 0x100_0000) as u64;
    ((low * 0x100_0001 + (low << 48)) & 0xff_00ff_00ff_0000) + (w >> 24) as u64
}

// Its digits, eight bits each, the highest digit in the lowest bits. The higher digit of a byte goes down and the lower one up; the mask drops the
// other digit that went along.
fn digits_apart(w: u32) -> u64
    ensures { result ≡ digit_lanes (λ d. d) w }
{
    let bytes = bytes_apart(w);
    ((bytes >> 4) | (bytes << 8)) & 0xf0f_0f0f_0f0f_0f0f
}

// Their characters. 6 more than a digit reaches 16 where that is a letter, and letters come 39 later than they would behind 9.
fn characters(w: u32) -> u64
    ensures { result ≡ digit_lanes digit w }
{
    let digits = digits_apart(w);
    let letters = ((digits + 0x606_0606_0606_0606) >> 4) & 0x101_0101_0101_0101;
    digits + 0x3030_3030_3030_3030 + letters * 39
}

impl Page<'_> {
    // A field that is a word.
    fn put_word(&mut self, w: u32)
        requires { HasRoom self.old (ascii " " ++ word w) }
        ensures { Puts self.old (ascii " " ++ word w) self.new }
    {
        self.put_byte(b' ');
        self.put_bytes(&characters(w).to_le_bytes());
    }

    // The words of a line, and its end.
    pub(crate) fn put_words(&mut self, ws: &[u32])
        requires { HasRoom self.old (ended (words ws.now)) }
        ensures { Puts self.old (ended (words ws.now)) self.new }
    {
        if ws.is_empty() {
            self.put_bytes(b" -\n");
            return;
        }
        for w in ws {
            self.put_word(*w);
        }
        self.put_byte(b'\n');
    }
}
