// Steps on a grid's board: neighbours, and the way to the end of a clue's line.
#![tactic(auto)]

ghost use Rattle.std.specs.Prelude.{◌≡◌, ◌<◌, length, get_or};
ghost use Rattle.rules.specs.Directions.{opposite};
ghost use Rattle.rules.specs.Record.{size, OnBoard};
ghost use Rattle.rules.specs.Read.{puzzle_on};
ghost use Rattle.rules.specs.Board.{neighbour, stops_before, line_next, line};
ghost use Rattle.rules.specs.Walk.{go};

use rules::board::Board;
use rules::{Cell, Direction, Grid};

pub fn opposite(d: Direction) -> Direction
    ensures { result ≡ opposite d }
{
    match d {
        Direction::North => Direction::South,
        Direction::East => Direction::West,
        Direction::South => Direction::North,
        Direction::West => Direction::East,
    }
}

// The neighbour of a cell, if there is one.
pub fn neighbour(g: Grid, x: usize, d: Direction) -> Option<usize>
    requires { OnBoard g x }
    ensures { result ≡ neighbour g d x }
{
    let columns = g.columns;
    match d {
        Direction::North => x.checked_sub(columns),
        Direction::East => (x % columns + 1 < columns).then_some(x + 1),
        Direction::South => (x + columns < g.rows * columns).then_some(x + columns),
        Direction::West => (x % columns != 0).then(|| x - 1),
    }
}

// The neighbour, or the cell itself where there is none.
pub fn go(g: Grid, x: usize, d: Direction) -> usize
    requires { OnBoard g x }
    ensures { result ≡ go (neighbour g) d x }
{
    neighbour(g, x, d).unwrap_or(x)
}

// Does a line stop before the cell?
fn stops_before(board: &Board, x: usize) -> bool
    requires { x < size board.now.grid }
    ensures { result ≡ stops_before (puzzle_on board.now) x }
{
    board.grid.stops_before_clues() && matches!(board.cell(x), Cell::Clue(_, _))
}

// The cell that follows y on a line in a direction, if the line does not end at y.
fn line_next(board: &Board, y: usize, d: Direction) -> Option<usize>
    requires { y < size board.now.grid }
    ensures { result ≡ line_next (puzzle_on board.now) d y }
{
    let next = neighbour(board.grid, y, d)?;
    (!stops_before(board, next)).then_some(next)
}

// Where a line ends.
#[derive(Clone, Copy, Debug, PartialEq, Eq)]
pub struct End {
    // Its far end; the clue's own cell where the line is empty.
    pub cell: usize,
    // The number of cells on the line.
    pub cells: usize,
}

// The end of the line that leaves x in a direction.
pub fn line_end(board: &Board, x: usize, d: Direction) -> End
    requires { x < size board.now.grid }
    ensures cell_value { result.cell ≡ get_or (line (puzzle_on board.now) d x) 0 x }
    ensures cells_value { result.cells ≡ length (line (puzzle_on board.now) d x) }
{
    let mut cell = x;
    let mut cells = 0;
    while let Some(next) = line_next(board, cell, d) {
        cell = next;
        cells += 1;
    }
    End { cell, cells }
}
