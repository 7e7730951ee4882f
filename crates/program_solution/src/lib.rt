// What the programs that print a solution have in common: the search under program 2's limits and budget, and the lines without a drawing.
#![tactic(auto)]

ghost use Rattle.program_solution.specs.Solutions.{Solves};

use answers::Outcome;
use program_text::{BUDGET, ELEMENT_LIMIT, VARIABLE_LIMIT, put_line, put_refused};
use rules::MOST_CELLS;
use rules::board::Board;
use rules::record::read;
use search_call::Ending;
use solver_call::solve_grid;

// What a program has to print of a record. (No `Result`: a line is no failure.)
#[derive(Clone, Copy)]
pub enum ToPrint<'a> {
    // A line, which was written: its bytes.
    Line(usize),
    // The drawing, which was written, of this board.
    Drawing(Board<'a>),
}

// Solves a record's grid under program 2's limits and budget. Where there is a solution it is written into `drawing`; else the line that a
// program prints, a refusal, `none` or `halted`, is written into `text`.
pub fn solve_record<'a>(
    record: &'a [u8],
    drawing: &mut [u8; MOST_CELLS],
    text: &mut [u8],
) -> ToPrint<'a>
    ensures { Solves «record».now drawing.old text.old result drawing.new text.new }
{
    let board = match read(record) {
        Ok(board) => board,
        Err(refusal) => {
            return ToPrint::Line(put_refused(text, Outcome::from(refusal).number as usize));
        }
    };
    let mut list = [0i32; ELEMENT_LIMIT];
    let mut trail = [0i32; VARIABLE_LIMIT];
    let mut marks = [0u8; VARIABLE_LIMIT];
    let mut numbers = [0u64; VARIABLE_LIMIT];
    let mut values = [0u8; VARIABLE_LIMIT];
    let answer = solve_grid(
        &board,
        &mut list,
        &mut trail,
        &mut marks,
        &mut numbers,
        &mut values,
        drawing,
        BUDGET,
    );
    let end = match answer {
        Ok(end) => end,
        Err(refusal) => {
            return ToPrint::Line(put_refused(text, Outcome::from(refusal).number as usize));
        }
    };
    match end.ending {
        Ending::Found => ToPrint::Drawing(board),
        Ending::None => ToPrint::Line(put_line(text, b"none\n")),
        Ending::Halted => ToPrint::Line(put_line(text, b"halted\n")),
    }
}
