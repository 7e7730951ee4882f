// Counts a grid's clauses and their elements without writing them: of each cell by products, so that no clause is visited.
#![tactic(auto)]

ghost use Rattle.std.specs.Prelude.{◌≡◌, ◌*◌, ◌≤◌, ◌<◌, ◌^◌, get_or};
ghost use Rattle.answers.specs.Lists.{how_many};
ghost use Rattle.answers.specs.Outcome.{answer};
ghost use Rattle.rules.specs.declared.Cell.TheVariants.{Open, Clue};
ghost use Rattle.rules.specs.Record.{size, most_cells};
ghost use Rattle.rules.specs.Read.{puzzle_on, rules_board};
ghost use Rattle.rules.specs.Board.{line};
ghost use Rattle.encoder.specs.Variables.{open_count, rank};
ghost use Rattle.encoder.specs.Clauses.{clauses, pair_count, Sized};
ghost use Rattle.encoder_lines.specs.Line.{LineEnd};
ghost use Rattle.encoder_size.specs.Counts.{counts_of, amount_of, open_amount, clue_amount, cell_families, Amounts};

use answers::{Outcome, answered};
use encoder_numbers::TABLE;
use encoder_numbers::numbering::Numbering;
use encoder_numbers::tables::{fill, neighbour_count, open_there, sizes_below, variable_count};
use judge_cells::cells::is_open;
use rules::board::Board;
use rules::{Cell, Direction};
use rules_board::{End, go, line_end, opposite};

// Some clauses, and their elements with the closing zeros.
#[derive(Clone, Copy, Debug, PartialEq, Eq)]
pub struct Amount {
    pub clauses: usize,
    pub elements: usize,
}

// What the encoder answers.
#[derive(Clone, Copy, Debug, PartialEq, Eq)]
pub struct Counts {
    pub elements: usize,
    pub variables: usize,
    pub clauses: usize,
}

impl From<Counts> for Outcome {
    ghost from_gives = { λ c t. t ≡ answer c.elements c.variables c.clauses };

    fn from(counts: Counts) -> Outcome {
        answered(
            counts.elements as u64,
            counts.variables as u64,
            counts.clauses as u64,
        )
    }
}

// How many pairs n things have.
fn pair_count(n: usize) -> usize
    requires { n ≤ 256 }
    ensures value { result ≡ pair_count n }
    ensures upper_bound { result < 2 ^ 15 }
{
    if n == 0 {
        return 0;
    }
    n * (n - 1) / 2
}

// A product of small numbers is small.
fn times(n: usize, m: usize) -> usize
    requires { (n < 2 ^ 15) × (m < 2 ^ 15) }
    ensures value { result ≡ n * m }
    ensures upper_bound { result < 2 ^ 30 }
{
    n * m
}

// Clauses of one, two and three literals, and further literals in them.
fn of_lengths(ones: usize, twos: usize, threes: usize, more: usize) -> Amount
    requires { (ones < 2 ^ 32) × (twos < 2 ^ 32) × (threes < 2 ^ 32) × (more < 2 ^ 32) }
    ensures { result ≡ amount_of ones twos threes more }
{
    let clauses = ones + twos + threes;
    let elements = ones * 2 + twos * 3 + threes * 4 + more;
    Amount { clauses, elements }
}

// An open cell, with F, its rank, its open neighbours, those to the east and south, and that to the east.
fn open_amount(f: usize, lower: usize, neighbours: usize, after: usize, east: usize) -> Amount
    requires f_nonzero { (0 < f) × (f ≤ most_cells) × (lower ≤ most_cells) }
    requires neighbours_bound { (neighbours ≤ 4) × (after ≤ 2) × (east ≤ 1) }
    ensures { result ≡ open_amount f lower neighbours after east }
{
    let pairs = pair_count(neighbours);
    let twos = (after + neighbours + pairs + f + 1) * 2 + lower;
    of_lengths(4, twos, times(neighbours, f - 1), neighbours * 2 + east + f)
}

// A clue with number n, with the cells on its line that are open and those that are not.
fn clue_amount(n: usize, opens: usize, shut: usize) -> Amount
    requires { (n < 256) × (opens ≤ most_cells) × (shut ≤ most_cells) }
    ensures { result ≡ clue_amount n opens shut }
{
    let pairs = pair_count(n + 1);
    let twos = times(opens + shut, pairs) + times(shut, n + 1) + opens;
    of_lengths(n + 2, twos, times(opens, n * 2 + 1), 0)
}

// The open cells on the line that leaves x in direction d and ends there.
fn open_on_line(board: &Board, x: usize, d: Direction, end: End) -> usize
    requires line_end { LineEnd (puzzle_on board.now) d x end }
    requires x_bound { x < size board.now.grid }
    ensures { result ≡ how_many (rules_board board.now).is_open (line (puzzle_on board.now) d x) }
{
    let back = opposite(d);
    let mut y = end.cell;
    let mut count = 0;
    for _ in 0..end.cells {
        count += usize::from(is_open(board, y));
        y = go(board.grid, y, back);
    }
    count
}

// The clauses of an open cell.
fn at_open(board: &Board, f: usize, lower: usize, x: usize) -> Amount
    requires x_bound { (x < size board.now.grid) × (get_or (puzzle_on board.now).cells x Open ≡ Open) }
    requires f_value { (f ≡ open_count (rules_board board.now)) × (lower ≡ rank (rules_board board.now) x) }
    ensures { Amounts (rules_board board.now) (cell_families board.now.grid board.now.«record».now x) result }
{
    let neighbours = neighbour_count(board, x);
    let east = open_there(board, x, Direction::East);
    let south = open_there(board, x, Direction::South);
    open_amount(f, lower, neighbours, east + south, east)
}

// The clauses of a clue.
fn at_clue(board: &Board, x: usize, d: Direction, n: usize) -> Amount
    requires { (x < size board.now.grid) × (n < 256) × (get_or (puzzle_on board.now).cells x Open ≡ Clue d n) }
    ensures { Amounts (rules_board board.now) (cell_families board.now.grid board.now.«record».now x) result }
{
    let end = line_end(board, x, d);
    let opens = open_on_line(board, x, d, end);
    clue_amount(n, opens, end.cells - opens)
}

// The clauses of a cell; a shaded cell has none.
fn at_cell(board: &Board, f: usize, lower: usize, x: usize) -> Amount
    requires x_bound { x < size board.now.grid }
    requires f_value { (f ≡ open_count (rules_board board.now)) × (lower ≡ rank (rules_board board.now) x) }
    ensures { Amounts (rules_board board.now) (cell_families board.now.grid board.now.«record».now x) result }
{
    match board.cell(x) {
        Cell::Open => at_open(board, f, lower, x),
        Cell::Clue(d, n) => at_clue(board, x, d, usize::from(n)),
        Cell::Shaded => of_lengths(0, 0, 0, 0),
    }
}

// All clauses: those of the cells, and [all S].
fn all_clauses(numbering: &Numbering) -> Amount
    ensures { let b = rules_board numbering.now.board in Sized b (clauses b) result.clauses result.elements }
{
    let f = numbering.sizes.opens;
    let mut clauses = 1;
    let mut elements = f + 1;
    for x in 0..numbering.board.grid.size() {
        let below = sizes_below(numbering, x);
        let more = at_cell(&numbering.board, f, below.opens, x);
        clauses += more.clauses;
        elements += more.elements;
    }
    Amount { clauses, elements }
}

// The elements of a grid's clause list, V, and the number of its clauses.
pub fn count(board: &Board) -> Counts
    ensures { result ≡ counts_of (rules_board board.now) }
{
    let mut table = [0usize; TABLE];
    let sizes = fill(board, &mut table);
    let all = all_clauses(&Numbering {
        board: *board,
        sizes,
        table: &table,
    });
    Counts {
        elements: all.elements,
        variables: variable_count(board, sizes),
        clauses: all.clauses,
    }
}
