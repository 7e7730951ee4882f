// Writes the clauses of clue lines: family 2 of document 01.
#![tactic(auto, using(encoder_shapes::proofs::Turns::shapes))]

ghost use Rattle.std.specs.Prelude.{◌+◌, ◌<◌, ◌^◌};
ghost use Rattle.answers.specs.Writer.{Puts};
ghost use Rattle.rules.specs.Record.{size};
ghost use Rattle.rules.specs.Read.{puzzle_on, rules_board};
ghost use Rattle.answers.specs.Lists.{joined};
ghost use Rattle.encoder.specs.Clauses.{clue_lines, list_of};
ghost use Rattle.encoder_shapes.specs.Limits.{WithinLimits, PartsWithinLimits};
ghost use Rattle.encoder_lines.specs.Line.{count_step_shut, count_step_both, count_step_below, count_step_open, count_step_row, count_step_parts, count_step_each};
ghost use Rattle.encoder_lines.specs.Line.{blacks_of, LineEnd, clue_numbers, clue_at};

use answers::Writer;
use encoder_numbers::cells::{black_number, count_number};
use encoder_numbers::numbering::Numbering;
use encoder_shapes::{
    at_most_one, both_imply, each_unit_not, implies, implies_either, not_both, unit,
};
use rules::{Cell, Direction};
use rules_board::{End, go, line_end, opposite};

// Past a cell that is not open: [−T(j,t) T(j+1,t)], for the n counts t from 0 on.
fn count_step_shut(out: &mut Writer<i32>, row: usize, next: usize, n: usize)
    requires { WithinLimits out.old.place (count_step_shut row next n) }
    ensures { Puts out.old (count_step_shut row next n) out.new }
{
    for k in 0..n {
        implies(out, row + k, next + k);
    }
}

// [−a z b] [−a −z b+1]
fn count_step_both(out: &mut Writer<i32>, a: usize, z: usize, b: usize)
    requires { PartsWithinLimits out.old.place (count_step_both a z b) }
    ensures { Puts out.old (joined (count_step_both a z b)) out.new }
{
    implies_either(out, a, z, b);
    both_imply(out, a, z, b + 1);
}

// [−T(j,t) Zc T(j+1,t)] [−T(j,t) −Zc T(j+1,t+1)], for t below n.
fn count_step_below(out: &mut Writer<i32>, row: usize, next: usize, z: usize, n: usize)
    requires { WithinLimits out.old.place (count_step_below row next z n) }
    ensures { Puts out.old (count_step_below row next z n) out.new }
{
    for k in 0..n {
        count_step_both(out, row + k, z, next + k);
    }
}

// An open cell: for t = n the second clause is [−T(j,n) −Zc].
fn count_step_open(out: &mut Writer<i32>, row: usize, next: usize, z: usize, n: usize)
    requires { PartsWithinLimits out.old.place (count_step_open row next z n) }
    ensures { Puts out.old (joined (count_step_open row next z n)) out.new }
{
    count_step_below(out, row, next, z, n);
    implies_either(out, row + n, z, next + n);
    not_both(out, row + n, z);
}

// t = 0 to n, past a cell whose Z is z, or past one that is not open if z is 0.
fn count_step_row(out: &mut Writer<i32>, z: usize, row: usize, next: usize, n: usize)
    requires within_limits { WithinLimits out.old.place (count_step_row z row next n) }
    requires n_bound { n < 256 }
    ensures { Puts out.old (count_step_row z row next n) out.new }
{
    if z == 0 {
        count_step_shut(out, row, next, n + 1);
    } else {
        count_step_open(out, row, next, z, n);
    }
}

// Past a cell: from the row that begins at row to the next one.
fn count_step_cell(out: &mut Writer<i32>, row: usize, z: usize, n: usize)
    requires parts_within_limits { PartsWithinLimits out.old.place (count_step_parts row z n) }
    requires row_bound { (row < 2 ^ 32) × (n < 256) }
    ensures { Puts out.old (joined (count_step_parts row z n)) out.new }
{
    let next = row + (n + 1);
    count_step_row(out, z, row, next, n);
    at_most_one(out, next, n + 1);
}

// The line that leaves x in direction d and ends there, from its far end on; first is the number of T(0,0).
fn count_step_each(
    out: &mut Writer<i32>,
    numbering: &Numbering,
    x: usize,
    d: Direction,
    end: End,
    n: usize,
    first: usize,
)
    requires within_limits { WithinLimits out.old.place (count_step_each first n (blacks_of numbering.now.board.grid numbering.now.board.«record».now d x)) }
    requires line_end { LineEnd (puzzle_on numbering.now.board) d x end }
    requires x_bound { (x < size numbering.now.board.grid) × (n < 256) }
    ensures { Puts out.old (count_step_each first n (blacks_of numbering.now.board.grid numbering.now.board.«record».now d x)) out.new }
{
    let back = opposite(d);
    let mut y = end.cell;
    let mut row = first;
    for _ in 0..end.cells {
        let z = black_number(numbering, y);
        count_step_cell(out, row, z, n);
        y = go(numbering.board.grid, y, back);
        row += n + 1;
    }
}

// A clue in cell x with its direction and number.
fn clue(
    out: &mut Writer<i32>,
    numbering: &Numbering,
    x: usize,
    d: Direction,
    n: usize,
    first: usize,
)
    requires parts_within_limits { PartsWithinLimits out.old.place (clue_numbers first n (blacks_of numbering.now.board.grid numbering.now.board.«record».now d x)) }
    requires x_bound { (x < size numbering.now.board.grid) × (n < 256) }
    ensures { Puts out.old (joined (clue_numbers first n (blacks_of numbering.now.board.grid numbering.now.board.«record».now d x))) out.new }
{
    let end = line_end(&numbering.board, x, d);
    unit(out, first);
    each_unit_not(out, first + 1, n);
    count_step_each(out, numbering, x, d, end, n, first);
    unit(out, first + end.cells * (n + 1) + n);
}

// The clue in cell x, if it is one.
#[tactic(auto, using(crate::proofs::Family::clues))]
fn clue_at(out: &mut Writer<i32>, numbering: &Numbering, x: usize)
    requires within_limits { WithinLimits out.old.place (list_of (rules_board numbering.now.board) (clue_at (puzzle_on numbering.now.board) x)) }
    requires x_bound { x < size numbering.now.board.grid }
    ensures { Puts out.old (list_of (rules_board numbering.now.board) (clue_at (puzzle_on numbering.now.board) x)) out.new }
{
    if let Cell::Clue(d, n) = numbering.board.cell(x) {
        let first = count_number(numbering, x);
        clue(out, numbering, x, d, n as usize, first);
    }
}

// 2. Clue lines.
#[tactic(auto, using(crate::proofs::Family::clues))]
pub fn clue_lines(out: &mut Writer<i32>, numbering: &Numbering)
    requires { let b = rules_board numbering.now.board in WithinLimits out.old.place (list_of b (clue_lines b)) }
    ensures { let b = rules_board numbering.now.board in Puts out.old (list_of b (clue_lines b)) out.new }
{
    for x in 0..numbering.board.grid.size() {
        clue_at(out, numbering, x);
    }
}
