// The lines that the programs print beside DIMACS text, put into a lent buffer.
#![tactic(auto)]

ghost use Rattle.std.specs.Prelude.{◌≡◌, ◌+◌, ◌≤◌, ◌<◌, ◌^◌, length};
ghost use Rattle.answers.specs.Lent.{Wrote};
ghost use Rattle.answers.specs.Writer.{Puts};
ghost use Rattle.rules.specs.Record.{most_cells};
ghost use Rattle.program_text.specs.Lines.{refused_line, hex_digit, hex_entry, behind_cell, drawing_text};

use answers::Writer;
use text::put_field;

// The programs' limits: the list elements and the variables that they hold, and the most steps that they search.
pub const ELEMENT_LIMIT: usize = 8192;

pub const VARIABLE_LIMIT: usize = 4096;

pub const BUDGET: u64 = 1000000;

// One line such as `refused 3`.
#[tactic(auto, using(text::proofs::Decimals::digits))]
pub fn put_refused(text: &mut [u8], number: usize) -> usize
    ensures { Wrote text.old 0 (refused_line number) text.new result }
{
    let mut out = Writer::new(text);
    out.put_slice(b"refused ");
    put_field(&mut out, number, b'\n');
    out.place()
}

// A line of one word, such as `none`.
pub fn put_line(text: &mut [u8], line: &[u8]) -> usize
    ensures { Wrote text.old 0 line.now text.new result }
{
    let mut out = Writer::new(text);
    out.put_slice(line);
    out.place()
}

fn hex_digit(n: u8) -> u8
    requires { n < 16 }
    ensures { result ≡ hex_digit n }
{
    if n < 10 {
        return 48 + n;
    }
    87 + n
}

// The byte behind a cell: LF if it is the last of its row, else a space.
fn behind_cell(columns: usize, x: usize) -> u8
    requires { (0 < columns) × (x < most_cells) }
    ensures { result ≡ behind_cell columns x }
{
    if (x + 1) % columns == 0 {
        return b'\n';
    }
    b' '
}

// A byte in hexadecimal, and the byte behind it.
fn put_hex(out: &mut Writer<u8>, b: u8, end: u8)
    requires { out.old.place + 3 < 2 ^ 64 }
    ensures { Puts out.old (hex_entry b end) out.new }
{
    out.put_slice(&[hex_digit(b / 16), hex_digit(b % 16), end]);
}

// A drawing, a row a line.
#[tactic(auto, using(crate::proofs::Lines::cells), unfolding(crate::specs::Lines::drawing_from))]
pub fn put_drawing(text: &mut [u8], columns: usize, drawing: &[u8]) -> usize
    requires { (0 < columns) × (length drawing.now ≤ most_cells) }
    ensures { Wrote text.old 0 (drawing_text columns drawing.now) text.new result }
{
    let mut out = Writer::new(text);
    for (x, byte) in drawing.iter().enumerate() {
        put_hex(&mut out, *byte, behind_cell(columns, x));
    }
    out.place()
}
