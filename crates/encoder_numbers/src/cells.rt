// The numbers of the variables of a cell and of its open neighbours, by the table.
ghost use Rattle.std.specs.Prelude.{◌≡◌, ◌<◌};
ghost use Rattle.rules.specs.Record.{size};
ghost use Rattle.rules.specs.Read.{rules_board};
ghost use Rattle.encoder.specs.Variables.{E, Q, number};
ghost use Rattle.encoder_numbers.specs.Numbered.{black_of, neighbour_numbers_to, neighbour_numbers_of, cell_numbers_of};
ghost use Rattle.encoder_numbers.specs.Tables.{OpenCell, OpenPair, first_count};

use super::numbering::Numbering;
use super::tables::{links_before, open_neighbour, sizes_below};
use super::{CellNumbers, NeighbourNumbers};
use judge_cells::cells::is_open;
use rules::Direction;
use rules_board::opposite;

// The number of a cell's Z; 0 if it is not open.
pub fn black_number(numbering: &Numbering, x: usize) -> usize
    requires { x < size numbering.now.board.grid }
    ensures { result ≡ black_of (rules_board numbering.now.board) x }
{
    if is_open(&numbering.board, x) {
        sizes_below(numbering, x).opens + 1
    } else {
        0
    }
}

// The number of E(x,d): after Z and S come the E variables of the cells before x, then its own. The neighbour y is there to say that there is one.
pub fn link_number(numbering: &Numbering, x: usize, d: Direction, y: usize) -> usize
    requires { OpenPair numbering.now.board.grid numbering.now.board.«record».now x d y }
    ensures { result ≡ number (rules_board numbering.now.board) (E x d) }
{
    let below = sizes_below(numbering, x);
    let before = links_before(&numbering.board, x, d);
    numbering.sizes.opens + numbering.sizes.opens + below.links + before + 1
}

// The number of Q(x,0): after Z, S and E come F for each open cell before x.
fn distance_number(numbering: &Numbering, x: usize) -> usize
    requires { OpenCell numbering.now.board.grid numbering.now.board.«record».now x }
    ensures { result ≡ number (rules_board numbering.now.board) (Q x 0) }
{
    let below = sizes_below(numbering, x);
    numbering.sizes.opens
        + numbering.sizes.opens
        + numbering.sizes.links
        + below.opens * numbering.sizes.opens
        + 1
}

// The number of the first T variable of the clues from cell x on: after all Z, S, E and Q come those of the clues before x.
pub fn count_number(numbering: &Numbering, x: usize) -> usize
    requires { x < size numbering.now.board.grid }
    ensures { result ≡ first_count numbering.now.board.grid numbering.now.board.«record».now x }
{
    let below = sizes_below(numbering, x);
    numbering.sizes.opens
        + numbering.sizes.opens
        + numbering.sizes.links
        + numbering.sizes.opens * numbering.sizes.opens
        + below.counts
        + 1
}

// The open neighbour y of an open cell.
fn numbers_to(numbering: &Numbering, x: usize, d: Direction, y: usize) -> NeighbourNumbers
    requires { OpenPair numbering.now.board.grid numbering.now.board.«record».now x d y }
    ensures { result ≡ neighbour_numbers_to (rules_board numbering.now.board) x (record { way = d; cell = y }) }
{
    NeighbourNumbers {
        out: link_number(numbering, x, d, y),
        back: link_number(numbering, y, opposite(d), x),
        black: black_number(numbering, y),
        distance: distance_number(numbering, y),
    }
}

// The neighbour of an open cell in a direction.
fn neighbour_numbers(numbering: &Numbering, x: usize, d: Direction) -> NeighbourNumbers
    requires { OpenCell numbering.now.board.grid numbering.now.board.«record».now x }
    ensures { result ≡ neighbour_numbers_of (rules_board numbering.now.board) x d }
{
    match open_neighbour(&numbering.board, x, d) {
        Some(y) => numbers_to(numbering, x, d, y),
        None => NeighbourNumbers::default(),
    }
}

// An open cell and its four neighbours.
pub fn cell_numbers(numbering: &Numbering, x: usize) -> CellNumbers
    requires { OpenCell numbering.now.board.grid numbering.now.board.«record».now x }
    ensures { result ≡ cell_numbers_of (rules_board numbering.now.board) x }
{
    let rank = sizes_below(numbering, x).opens;
    CellNumbers {
        rank,
        black: rank + 1,
        start: numbering.sizes.opens + rank + 1,
        distance: distance_number(numbering, x),
        north: neighbour_numbers(numbering, x, Direction::North),
        east: neighbour_numbers(numbering, x, Direction::East),
        south: neighbour_numbers(numbering, x, Direction::South),
        west: neighbour_numbers(numbering, x, Direction::West),
    }
}
