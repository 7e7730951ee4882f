// Reads a record on standard input, solves it as program 2 does and prints the solution's proof sheet, `none` or `halted`, or one line such
// as `refused 3`.
#![tactic(auto)]

ghost use Rattle.program_text.specs.Counts.{IsPrefixLen};
ghost use Rattle.answers.specs.Lent.{Wrote};
ghost use Rattle.draw.specs.Printed.{printed_sheet};

use program_io::read_full;
use program_solution::{ToPrint, solve_record};
use rules::MOST_CELLS;
use rules::board::Drawn;
use sheet_call::lines::put_sheet;
use std::io;
use std::io::Write;

// Writes what the program prints for the bytes on its standard input, which `text` has room for; returns how many bytes that is.
fn sheet_text(record: &[u8], text: &mut [u8; 65536]) -> usize
    ensures wrote { Wrote text.old 0 (printed_sheet «record».now) text.new result }
    ensures prefix_len { IsPrefixLen result text.new }
{
    let mut drawing = [0u8; MOST_CELLS];
    match solve_record(record, &mut drawing, text) {
        ToPrint::Line(n) => n,
        ToPrint::Drawing(board) => {
            let drawn = Drawn {
                board,
                drawing: &drawing[..board.grid.size()],
            };
            put_sheet(text, &drawn)
        }
    }
}

// No record has more than 65,535 bytes, so 65,536 of a longer input are enough to refuse it.
fn main(rt: HostRuntime) -> io::Result<()> {
    let mut record = [0u8; 65536];
    let read = read_full(&mut rt.stdin(), &mut record)?;
    let mut text = [0u8; 65536];
    let printed = sheet_text(&record[..read], &mut text);
    rt.stdout().write_all(&text[..printed])
}
