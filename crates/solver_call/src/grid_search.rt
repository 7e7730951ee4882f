// The search on a grid's clauses, and at "found" the drawing to which its trail decodes.
ghost use Rattle.search.specs.Trail.{slices};
ghost use Rattle.solver_call.specs.GridSearch.{Fits, Ends};

use super::Needs;
use decoder::decode_grid;
use rules::board::Board;
use search_call::{End, Ending, searched};
use solver_listing::values::give_values;

// Searches a grid's clauses, begun empty; at "found" writes the trail's bytes and draws them. Of each buffer the part that is needed is lent on.
pub fn find_drawing(
    board: &Board,
    list: &[i32],
    trail: &mut [i32],
    marks: &mut [u8],
    numbers: &mut [u64],
    values: &mut [u8],
    drawing: &mut [u8],
    needed: Needs,
    budget: u64,
) -> End
    requires { Fits board.now.grid board.now.«record».now needed list.now (slices trail.old marks.old numbers.old) values.old drawing.old }
    ensures { Ends board.now.«record».now budget
        (slices trail.old marks.old numbers.old) values.old drawing.old result
        (slices trail.new marks.new numbers.new) values.new drawing.new }
{
    let v = needed.variables;
    let end = searched(
        &list[..needed.elements],
        &mut trail[..v],
        &mut marks[..v],
        &mut numbers[..v],
        0,
        budget,
    );
    if end.ending == Ending::Found {
        give_values(&trail[..v], &mut values[..v]);
        // (the values satisfy the clauses, so the judge says yes)
        let _ = decode_grid(board, &values[..v], &mut drawing[..needed.cells]);
    }
    end
}
