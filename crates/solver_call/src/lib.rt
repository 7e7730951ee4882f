// The solver: a record's bytes in; a drawing, "none" or "halted" out.
#![tactic(auto)]

ghost use Rattle.std.specs.Prelude.{◌≡◌};
ghost use Rattle.solver.specs.SolverCall.{solver_answer, solver_leaves};
ghost use Rattle.solver_listing.specs.Read.{IsRead};
ghost use Rattle.solver_call.specs.Answer.{solved_outcome, lent_of};

use encoder_call::encode_grid;
use encoder_size::count;
use grid_search::find_drawing;
use rooms::first_short;
use rules::RecordRefusal;
use rules::board::Board;
use rules::record::read;
use search_call::End;

pub mod outcome; // the outcomes in document 01's numbers
mod rooms; // what a grid needs of the lent buffers
mod grid_search; // the search on a grid's clauses, with its drawing

// The elements of a grid's clause list, V and N.
#[derive(Clone, Copy, Debug, PartialEq, Eq)]
pub struct Needs {
    pub elements: usize,
    pub variables: usize,
    pub cells: usize,
}

// Why a call is refused: the record's refusal, else 6 with the elements needed.
#[derive(Clone, Copy, Debug, PartialEq, Eq)]
pub enum SolveRefusal {
    Record(RecordRefusal),
    TooShort(usize),
}

// Solves the grid that was read from a record: 6 for the lent buffers, then the search.
pub fn solve_grid(
    board: &Board,
    list: &mut [i32],
    trail: &mut [i32],
    marks: &mut [u8],
    numbers: &mut [u64],
    values: &mut [u8],
    drawing: &mut [u8],
    budget: u64,
) -> Result<End, SolveRefusal>
    requires { IsRead board.now.grid board.now.«record».now }
    ensures result_value { solved_outcome result
        ≡ solver_answer board.now.«record».now budget
        (lent_of list.old trail.old marks.old numbers.old values.old drawing.old) }
    ensures drawing_after { lent_of list.new trail.new marks.new numbers.new values.new drawing.new
        ≡ solver_leaves board.now.«record».now budget
        (lent_of list.old trail.old marks.old numbers.old values.old drawing.old) }
{
    let counts = count(board);
    let needed = Needs {
        elements: counts.elements,
        variables: counts.variables,
        cells: board.grid.size(),
    };
    first_short(list, trail, marks, numbers, values, drawing, needed)?;
    // (the list is long enough)
    let _ = encode_grid(board, counts, list);
    Ok(find_drawing(
        board, list, trail, marks, numbers, values, drawing, needed, budget,
    ))
}

// Solves a record's grid, or names the first cause against it.
pub fn solve(
    record: &[u8],
    list: &mut [i32],
    trail: &mut [i32],
    marks: &mut [u8],
    numbers: &mut [u64],
    values: &mut [u8],
    drawing: &mut [u8],
    budget: u64,
) -> Result<End, SolveRefusal>
    ensures result_value { solved_outcome result
        ≡ solver_answer «record».now budget
        (lent_of list.old trail.old marks.old numbers.old values.old drawing.old) }
    ensures drawing_after { lent_of list.new trail.new marks.new numbers.new values.new drawing.new
        ≡ solver_leaves «record».now budget
        (lent_of list.old trail.old marks.old numbers.old values.old drawing.old) }
{
    let board = read(record)?;
    solve_grid(&board, list, trail, marks, numbers, values, drawing, budget)
}
