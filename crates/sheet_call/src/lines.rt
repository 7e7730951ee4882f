// The lines of a sheet, put into a lent buffer. What is beyond its end is left out and counted all the same.
ghost use Rattle.std.specs.Prelude.{◌≡◌, ◌+◌, ◌*◌, ◌<◌, ◌^◌, length};
ghost use Rattle.answers.specs.Lent.{Wrote};
ghost use Rattle.answers.specs.Writer.{Puts};
ghost use Rattle.rules.specs.Record.{Sides};
ghost use Rattle.rules.specs.Read.{puzzle_on};
ghost use Rattle.sheet.specs.Sheet.{line_text, with_line_feed, sheet_text, sheet_bytes};
ghost use Rattle.sheet_call.specs.Characters.{characters_of};

use super::Characters;
use super::shown::shown_at;
use answers::Writer;
use rules::Grid;
use rules::board::Drawn;

fn put_characters(out: &mut Writer<u8>, c: Characters)
    requires { out.old.place + 3 < 2 ^ 64 }
    ensures { Puts out.old (characters_of c) out.new }
{
    out.put_slice(&[c.left, c.middle, c.right]);
}

// Line i, counted from 0, and its LF.
#[tactic(auto, using(crate::proofs::LineParts::cells))]
fn put_line(out: &mut Writer<u8>, drawn: &Drawn, i: usize)
    requires i_bound { i + 1 < 2 * drawn.now.board.grid.rows }
    requires place_bound { let line = line_text (puzzle_on drawn.now.board) drawn.now.drawing.now i in
        out.old.place + length (with_line_feed line) < 2 ^ 64 }
    ensures { let line = line_text (puzzle_on drawn.now.board) drawn.now.drawing.now i in
        Puts out.old (with_line_feed line) out.new }
{
    let columns = drawn.board.grid.columns;
    let first = i / 2 * columns;
    for x in first..first + columns {
        put_characters(out, shown_at(drawn, i, x));
    }
    out.put(b'\n');
}

// The whole sheet. A line between rows follows every cell row but the last.
#[tactic(auto, using(crate::proofs::LineParts::sheet_lines))]
pub fn put_sheet(text: &mut [u8], drawn: &Drawn) -> usize
    ensures { Wrote text.old 0 (sheet_text (puzzle_on drawn.now.board) drawn.now.drawing.now) text.new result }
{
    let mut out = Writer::new(text);
    let lines = (2 * drawn.board.grid.rows).saturating_sub(1);
    for i in 0..lines {
        put_line(&mut out, drawn, i);
    }
    out.place()
}

// The bytes of a sheet.
pub fn sheet_length(g: Grid) -> usize
    requires sides { Sides g }
    requires rows_nonzero { 0 < g.rows }
    ensures { result ≡ sheet_bytes g }
{
    (2 * g.rows - 1) * (3 * g.columns + 1)
}
