// The proof sheet: document 02's E7. A drawing that the judge agrees with, as plain text.
#![tactic(auto)]

ghost use Rattle.std.specs.Prelude.{◌≡◌, length};
ghost use Rattle.answers.specs.Outcome.{answer, first_refusal};
ghost use Rattle.answers.specs.Lent.{filled, unless_refused};
ghost use Rattle.rules.specs.Record.{puzzle};
ghost use Rattle.sheet.specs.Sheet.{sheet_text};
ghost use Rattle.sheet.specs.SheetCall.{sheet_grid_rows, sheet_answer, sheet_leaves};
ghost use Rattle.sheet_call.specs.Answer.{sheet_answer_outcome};

use judge::judge_grid;
use lines::{put_sheet, sheet_length};
use rules::JudgeRefusal;
use rules::board::{Board, Drawn};
use rules::record::read;

pub mod outcome; // the outcomes in document 01's numbers
pub mod lines; // the lines of a sheet
mod shown; // what a line shows at a cell

// The three characters of a cell in a line.
#[derive(Clone, Copy, Debug, PartialEq, Eq)]
pub struct Characters {
    pub left: u8,
    pub middle: u8,
    pub right: u8,
}

// Why a call is refused: the judge's refusal, else 6 with the bytes needed.
#[derive(Clone, Copy, Debug, PartialEq, Eq)]
pub enum SheetRefusal {
    Judge(JudgeRefusal),
    TooShort(usize),
}

// 7, 10 to 15 and 6 of document 01's table, in order, over a grid that was read; then the sheet.
pub fn write_grid(board: &Board, drawing: &[u8], sheet: &mut [u8]) -> Result<usize, SheetRefusal>
    ensures result_value { let g = board.now.grid in let s = board.now.«record».now in let ds = drawing.now in let before = sheet.old in
        sheet_answer_outcome result ≡ first_refusal (sheet_grid_rows g s ds before) (answer (length (sheet_text (puzzle g s) ds)) 0 0) }
    ensures sheet_after { let g = board.now.grid in let s = board.now.«record».now in let ds = drawing.now in let before = sheet.old in
        let t = first_refusal (sheet_grid_rows g s ds before) (answer (length (sheet_text (puzzle g s) ds)) 0 0) in
        sheet.new ≡ unless_refused t before (filled before (sheet_text (puzzle g s) ds)) }
{
    judge_grid(board, drawing)?;
    let needed = sheet_length(board.grid);
    if sheet.len() < needed {
        return Err(SheetRefusal::TooShort(needed));
    }
    let drawn = Drawn {
        board: *board,
        drawing,
    };
    Ok(put_sheet(sheet, &drawn))
}

// Writes the sheet of a record and a drawing, or names the first cause against it.
pub fn write(record: &[u8], drawing: &[u8], sheet: &mut [u8]) -> Result<usize, SheetRefusal>
    ensures result_value { sheet_answer_outcome result ≡ sheet_answer «record».now drawing.now sheet.old }
    ensures sheet_after { sheet.new ≡ sheet_leaves «record».now drawing.now sheet.old }
{
    let board = read(record)?;
    write_grid(&board, drawing, sheet)
}
