// How many variables a grid has, and where those of a cell begin: document 01's "Variables". The sizes of the cells before each cell stand in
// a table that is filled once, so that no variable's number costs a scan of the board.
ghost use Rattle.std.specs.Prelude.{◌≡◌, [], ◌∷◌, ◌+◌, ◌*◌, ◌≤◌, ◌<◌, length};
ghost use Rattle.answers.specs.Lent.{filled, Wrote};
ghost use Rattle.rules.specs.Record.{size};
ghost use Rattle.rules.specs.Read.{rules_board};
ghost use Rattle.encoder.specs.Variables.{directions, neighbours, variable_count, earlier};
ghost use Rattle.encoder_numbers.specs.Tables.{sizes_at, sizes_below, sizes_of, row_of, table_of, open_neighbour};

use super::Sizes;
use super::numbering::Numbering;
use judge_cells::cells::is_open;
use rules::board::Board;
use rules::{Cell, Direction};
use rules_board::{line_end, neighbour};

// The neighbour in that direction, if there is one and it is open.
pub fn open_neighbour(board: &Board, x: usize, d: Direction) -> Option<usize>
    requires { x < size board.now.grid }
    ensures { result ≡ open_neighbour (rules_board board.now) d x }
{
    let y = neighbour(board.grid, x, d)?;
    is_open(board, y).then_some(y)
}

// 1 where there is one, else 0.
pub fn open_there(board: &Board, x: usize, d: Direction) -> usize
    requires { x < size board.now.grid }
    ensures { result ≡ length (neighbours (rules_board board.now) x (d ∷ [])) }
{
    usize::from(open_neighbour(board, x, d).is_some())
}

// The open neighbours in the directions before d.
pub fn links_before(board: &Board, x: usize, d: Direction) -> usize
    requires { x < size board.now.grid }
    ensures { result ≡ length (neighbours (rules_board board.now) x (earlier d)) }
{
    match d {
        Direction::North => 0,
        Direction::East => open_there(board, x, Direction::North),
        Direction::South => {
            open_there(board, x, Direction::North) + open_there(board, x, Direction::East)
        }
        Direction::West => {
            open_there(board, x, Direction::North)
                + open_there(board, x, Direction::East)
                + open_there(board, x, Direction::South)
        }
    }
}

// All open neighbours: as many E variables has an open cell.
pub fn neighbour_count(board: &Board, x: usize) -> usize
    requires { x < size board.now.grid }
    ensures { result ≡ length (neighbours (rules_board board.now) x directions) }
{
    links_before(board, x, Direction::West) + open_there(board, x, Direction::West)
}

// The sizes of a cell: an open cell has its E variables, a clue (L + 1) times (n + 1) T variables, a shaded cell none.
fn sizes_at(board: &Board, x: usize) -> Sizes
    requires { x < size board.now.grid }
    ensures { result ≡ sizes_at board.now.grid board.now.«record».now x }
{
    match board.cell(x) {
        Cell::Open => Sizes {
            opens: 1,
            links: neighbour_count(board, x),
            ..Sizes::default()
        },
        Cell::Clue(d, n) => Sizes {
            counts: (line_end(board, x, d).cells + 1) * (usize::from(n) + 1),
            ..Sizes::default()
        },
        Cell::Shaded => Sizes::default(),
    }
}

// The sizes of the cells before x, and x.
fn with_cell(board: &Board, below: Sizes, x: usize) -> Sizes
    requires { (x < size board.now.grid) × (below ≡ sizes_below board.now.grid board.now.«record».now x) }
    ensures { result ≡ sizes_below board.now.grid board.now.«record».now (x + 1) }
{
    let more = sizes_at(board, x);
    Sizes {
        opens: below.opens + more.opens,
        links: below.links + more.links,
        counts: below.counts + more.counts,
    }
}

// Writes the three numbers of a cell; returns the place after them.
fn put_row(table: &mut [usize], at: usize, below: Sizes) -> usize
    requires { at + 3 ≤ length table.old }
    ensures { Wrote table.old at (row_of below) table.new result }
{
    table[at] = below.opens;
    table[at + 1] = below.links;
    table[at + 2] = below.counts;
    at + 3
}

// Fills the table; returns the sizes of all cells.
pub fn fill(board: &Board, table: &mut [usize]) -> Sizes
    requires { 3 * size board.now.grid ≤ length table.old }
    ensures value { result ≡ sizes_of board.now.grid board.now.«record».now }
    ensures table_after { table.new ≡ filled table.old (table_of board.now.grid board.now.«record».now) }
{
    let mut below = Sizes::default();
    let mut at = 0;
    for x in 0..board.grid.size() {
        at = put_row(table, at, below);
        below = with_cell(board, below, x);
    }
    below
}

// What the table holds for a cell: the sizes of the cells before it.
pub fn sizes_below(numbering: &Numbering, x: usize) -> Sizes
    requires { x < size numbering.now.board.grid }
    ensures { result ≡ sizes_below numbering.now.board.grid numbering.now.board.«record».now x }
{
    Sizes {
        opens: numbering.table[3 * x],
        links: numbering.table[3 * x + 1],
        counts: numbering.table[3 * x + 2],
    }
}

// V: 2F + A + F times F + the T variables.
pub fn variable_count(board: &Board, sizes: Sizes) -> usize
    requires { sizes ≡ sizes_of board.now.grid board.now.«record».now }
    ensures { result ≡ variable_count (rules_board board.now) }
{
    sizes.opens + sizes.opens + sizes.links + sizes.opens * sizes.opens + sizes.counts
}
