// Numbers in decimal, two digits at a time: one at a time made the program up to 4 % slower, in instructions.
ghost use Rattle.std.specs.Prelude.{◌≡◌, ◌++◌, ◌<◌};
ghost use Rattle.definition.specs.Output.{ascii, digit, decimal};
ghost use Rattle.report.specs.Page.{HasRoom, Puts};
ghost use Rattle.report.specs.Written.{Room, Written};
ghost use Rattle.report.specs.Digits.{two};

use crate::page::Page;

// One digit. `digit_of` would test for the letters, which no decimal number has.
#[tactic(auto, using(crate::proofs::Numbers::digits))]
fn decimal_digit(n: u64) -> u8
    requires { n < 10 }
    ensures { result ≡ digit n }
{
    n as u8 + b'0'
}

// Two digits, the first may be 0. This and the next are no methods of a page: as such they made the program up to 5 % slower, in instructions.
fn put_two(out: &mut [u8], at: usize, n: u64) -> usize
    requires { (n < 100) × Room out.old at (two n) }
    ensures { Written out.old at (two n) out.new result }
{
    out[at] = decimal_digit(n / 10);
    out[at + 1] = decimal_digit(n % 10);
    at + 2
}

fn put_digits(out: &mut [u8], at: usize, n: u64) -> usize
    requires { Room out.old at (decimal n) }
    ensures { Written out.old at (decimal n) out.new result }
{
    if n < 10 {
        out[at] = decimal_digit(n);
        return at + 1;
    }
    if n < 100 {
        return put_two(out, at, n);
    }
    let at = put_digits(out, at, n / 100);
    put_two(out, at, n % 100)
}

impl Page<'_> {
    pub(crate) fn put_decimal(&mut self, n: u64)
        requires { HasRoom self.old (decimal n) }
        ensures { Puts self.old (decimal n) self.new }
    {
        self.at = put_digits(self.out, self.at, n);
    }

    // A field that is a number.
    pub(crate) fn put_number(&mut self, n: u64)
        requires { HasRoom self.old (ascii " " ++ decimal n) }
        ensures { Puts self.old (ascii " " ++ decimal n) self.new }
    {
        self.put_byte(b' ');
        self.put_decimal(n);
    }
}
