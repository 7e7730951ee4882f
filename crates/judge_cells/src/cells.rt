// The tests of a cell, one for each cause that is sought cell by cell.
ghost use Rattle.std.specs.Prelude.{◌≡◌, ◌≤◌, ◌<◌, length, get_or};
ghost use Rattle.answers.specs.Lists.{how_many};
ghost use Rattle.rules.specs.Record.{size};
ghost use Rattle.rules.specs.Read.{puzzle_on, rules_board};
ghost use Rattle.rules.specs.Board.{neighbour, line};
ghost use Rattle.rules.specs.Directions.{opposite};
ghost use Rattle.rules.specs.Drawing.{blacks_nearest, black_at, link_at};
ghost use Rattle.rules.specs.Judge.{bad_byte, there, bad_byte_at, touches_at, unmatched_link, unmatched_link_at, white_at, not_two_at};
ghost use Rattle.judge_cells.specs.Tests.{unmet_at, test_at, first_of};

use super::Test;
use super::drawing::{black_bit, degree, linked};
use rules::board::{Board, Drawn};
use rules::{Cell, Direction};
use rules_board::{End, go, line_end, neighbour, opposite};

// Is the cell open?
pub fn is_open(board: &Board, x: usize) -> bool
    requires { x < size board.now.grid }
    ensures { result ≡ (rules_board board.now).is_open x }
{
    board.is_open(x)
}

// A byte that its cell doesn't allow: over 0x20, 0x11 to 0x1F, 0x20 at an open cell, or another byte at one that
// is not open.
fn bad_byte(open: bool, v: u8) -> bool
    ensures { result ≡ bad_byte «open» v }
{
    match v {
        0..=0x10 => !open,
        0x11..=0x1f => true,
        0x20 => open,
        _ => true,
    }
}

fn bad_byte_at(drawn: &Drawn, x: usize) -> bool
    requires { x < size drawn.now.board.grid }
    ensures { result ≡ bad_byte_at (rules_board drawn.now.board) drawn.now.drawing.now x }
{
    bad_byte(is_open(&drawn.board, x), drawn.drawing[x])
}

// Is there a black cell in that direction?
fn black_there(drawn: &Drawn, x: usize, d: Direction) -> bool
    requires { x < size drawn.now.board.grid }
    ensures { result ≡ there (black_at drawn.now.drawing.now) (neighbour drawn.now.board.grid d x) }
{
    match neighbour(drawn.board.grid, x, d) {
        Some(y) => drawn.drawing[y] == 0x10,
        None => false,
    }
}

fn touches_at(drawn: &Drawn, x: usize) -> bool
    requires { x < size drawn.now.board.grid }
    ensures { result ≡ touches_at (rules_board drawn.now.board) drawn.now.drawing.now x }
{
    drawn.drawing[x] == 0x10
        && (black_there(drawn, x, Direction::East) || black_there(drawn, x, Direction::South))
}

// The black cells among the j cells of a line that are nearest its far end, counted cell by cell from there towards the clue.
// x and d are there to say which line it is.
fn blacks_nearest(drawn: &Drawn, x: usize, d: Direction, end: End, j: usize) -> usize
    requires cell_value { end.cell ≡ get_or (line (puzzle_on drawn.now.board) d x) 0 x }
    requires j_in_bounds { j ≤ length (line (puzzle_on drawn.now.board) d x) }
    ensures { result ≡ blacks_nearest (black_at drawn.now.drawing.now) (line (puzzle_on drawn.now.board) d x) j }
{
    let back = opposite(d);
    let mut y = end.cell;
    let mut count = 0;
    for _ in 0..j {
        count += black_bit(drawn.drawing[y]);
        y = go(drawn.board.grid, y, back);
    }
    count
}

// The black cells of a clue's whole line: j is its length.
fn black_count(drawn: &Drawn, x: usize, d: Direction) -> usize
    requires { x < size drawn.now.board.grid }
    ensures { result ≡ how_many (black_at drawn.now.drawing.now) (line (puzzle_on drawn.now.board) d x) }
{
    let end = line_end(&drawn.board, x, d);
    let cells = end.cells;
    blacks_nearest(drawn, x, d, end, cells)
}

fn unmet_at(drawn: &Drawn, x: usize) -> bool
    requires { x < size drawn.now.board.grid }
    ensures { result ≡ unmet_at (puzzle_on drawn.now.board) drawn.now.drawing.now x }
{
    match drawn.board.cell(x) {
        Cell::Clue(d, n) => black_count(drawn, x, d) != usize::from(n),
        Cell::Open | Cell::Shaded => false,
    }
}

// Is there a cell in that direction with a link back?
fn linked_back(drawn: &Drawn, x: usize, d: Direction) -> bool
    requires { x < size drawn.now.board.grid }
    ensures { result ≡ there (λ y. link_at drawn.now.drawing.now y (opposite d)) (neighbour drawn.now.board.grid d x) }
{
    match neighbour(drawn.board.grid, x, d) {
        Some(y) => linked(drawn.drawing[y], opposite(d)),
        None => false,
    }
}

// Has x a link in that direction that is unmatched or leads off the board?
fn unmatched_link(drawn: &Drawn, x: usize, d: Direction) -> bool
    requires { x < size drawn.now.board.grid }
    ensures { result ≡ unmatched_link (rules_board drawn.now.board) drawn.now.drawing.now x d }
{
    linked(drawn.drawing[x], d) && !linked_back(drawn, x, d)
}

fn unmatched_link_at(drawn: &Drawn, x: usize) -> bool
    requires { x < size drawn.now.board.grid }
    ensures { result ≡ unmatched_link_at (rules_board drawn.now.board) drawn.now.drawing.now x }
{
    unmatched_link(drawn, x, Direction::North)
        || unmatched_link(drawn, x, Direction::East)
        || unmatched_link(drawn, x, Direction::South)
        || unmatched_link(drawn, x, Direction::West)
}

pub fn white_at(drawn: &Drawn, x: usize) -> bool
    requires { x < size drawn.now.board.grid }
    ensures { result ≡ white_at (rules_board drawn.now.board) drawn.now.drawing.now x }
{
    is_open(&drawn.board, x) && drawn.drawing[x] != 0x10
}

fn not_two_at(drawn: &Drawn, x: usize) -> bool
    requires { x < size drawn.now.board.grid }
    ensures { result ≡ not_two_at (rules_board drawn.now.board) drawn.now.drawing.now x }
{
    white_at(drawn, x) && degree(drawn.drawing[x]) != 2
}

// Does the test hold at a cell?
fn holds(t: Test, drawn: &Drawn, x: usize) -> bool
    requires { x < size drawn.now.board.grid }
    ensures { result ≡ test_at t (puzzle_on drawn.now.board) drawn.now.drawing.now x }
{
    match t {
        Test::DrawingByte => bad_byte_at(drawn, x),
        Test::Touching => touches_at(drawn, x),
        Test::ClueNotMet => unmet_at(drawn, x),
        Test::LinkUnmatched => unmatched_link_at(drawn, x),
        Test::NotTwoLinks => not_two_at(drawn, x),
        Test::White => white_at(drawn, x),
    }
}

// The first cell at which the test holds.
pub fn first(t: Test, drawn: &Drawn) -> Option<usize>
    ensures { result ≡ first_of t (rules_board drawn.now.board) drawn.now.drawing.now }
{
    for x in 0..drawn.board.grid.size() {
        if holds(t, drawn, x) {
            return Some(x);
        }
    }
    None
}
