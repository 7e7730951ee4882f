// Decimal numbers: their widths, and how a writer is given one. What is beyond the buffer's end is left out and counted all the same.
#![tactic(auto)]

ghost use Rattle.std.specs.Prelude.{◌≡◌, [], ◌∷◌, ◌++◌, ◌+◌, ◌<◌, ◌^◌, length};
ghost use Rattle.answers.specs.Writer.{Puts};
ghost use Rattle.text.specs.Decimal.{decimal};

use answers::Writer;

// The digits of a number.
pub fn width(n: usize) -> usize
    ensures { result ≡ length (decimal n) }
{
    if n == 0 {
        return 1;
    }
    n.ilog10() as usize + 1
}

// A number and the byte after it, the last digit first.
#[tactic(auto, using(crate::proofs::Decimals::digits))]
pub fn put_field(out: &mut Writer<u8>, n: usize, end: u8)
    requires { out.old.place + (length (decimal n) + 1) < 2 ^ 64 }
    ensures { Puts out.old (decimal n ++ (end ∷ [])) out.new }
{
    let mut field = [end; 21];
    let mut first = 20;
    let mut rest = n;
    while rest >= 10 {
        first -= 1;
        field[first] = b'0' + (rest % 10) as u8;
        rest /= 10;
    }
    first -= 1;
    field[first] = b'0' + rest as u8;
    out.put_slice(&field[first..]);
}
