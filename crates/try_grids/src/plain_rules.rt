// Is a drawing a solution? Decided in a plain way that shares nothing with the library. The drawings that are asked about have 0x20
// where the record's cell is not open, and a link at both its cells or at none.
ghost use Rattle.std.specs.Prelude.{◌<◌, ◌≤◌, length};

use super::drawings::{BLACK, CELLS, NOT_OPEN, NOTHING};

// Directions, as in a record.
const NORTH: u8 = 1;

const EAST: u8 = 2;

const SOUTH: u8 = 3;

const WEST: u8 = 4;

// A shaded cell in a record. It says nothing.
pub(crate) const SHADED: u8 = 0x50;

// The byte at a place, `NOTHING` past the end.
pub(crate) fn at(bytes: &[u8], i: usize) -> u8 {
    if i < bytes.len() {
        return bytes[i];
    }
    NOTHING
}

// The cell beside a cell, a number past the last cell's if there is none.
fn beside(columns: usize, x: usize, direction: u8) -> usize
    requires { (0 < columns) × (columns ≤ 12) × (x < 12) }
    ensures { result < 24 }
{
    if direction == NORTH && x >= columns {
        return x - columns;
    }
    if direction == EAST && (x + 1) % columns > 0 {
        return x + 1;
    }
    if direction == SOUTH {
        return x + columns;
    }
    if direction == WEST && x > 0 && x % columns > 0 {
        return x - 1;
    }
    CELLS
}

// Does a line end before a cell? In a record of kind 3 it does before a clue.
fn stops(record: &[u8], x: usize) -> bool
    requires { x < 12 }
{
    let code = at(record, 6 + x);
    at(record, 2) == 3 && code != 0 && code != SHADED
}

// How many black cells a clue's line has.
fn line_count(columns: usize, record: &[u8], drawing: &[u8], x: usize, direction: u8) -> u8
    requires { (0 < columns) × (columns ≤ 12) × (x < 12) }
{
    let mut count = 0;
    let mut y = x;
    for _ in 0..CELLS {
        y = beside(columns, y, direction);
        if y >= CELLS {
            return count;
        }
        if stops(record, y) {
            return count;
        }
        if at(drawing, y) == BLACK {
            count += 1;
        }
    }
    count
}

// A black cell has no black one beside it, a clue's line has its number of black cells, a white cell has two links; a
// shaded cell always fits.
fn fits(columns: usize, record: &[u8], drawing: &[u8], x: usize) -> bool
    requires { (0 < columns) × (columns ≤ 12) × (x < 12) }
{
    let b = at(drawing, x);
    if b == BLACK {
        let east = at(drawing, beside(columns, x, EAST));
        let south = at(drawing, beside(columns, x, SOUTH));
        return east != BLACK && south != BLACK;
    }
    if b == NOT_OPEN {
        let code = at(record, 6 + x);
        if code == SHADED {
            return true;
        }
        return line_count(columns, record, drawing, x, code / 16) == code % 16;
    }
    b % 2 + b / 2 % 2 + b / 4 % 2 + b / 8 % 2 == 2
}

// The first direction in which there is a link.
fn first_link(links: u8) -> u8
    ensures { result ≤ 4 }
{
    if links % 2 != 0 {
        return NORTH;
    }
    if links % 4 != 0 {
        return EAST;
    }
    if links % 8 != 0 {
        return SOUTH;
    }
    WEST
}

// How many links lead from a white cell back to it, 0 if they do not.
fn loop_length(columns: usize, drawing: &[u8], start: usize) -> usize
    requires { (0 < columns) × (columns ≤ 12) × (start < 12) }
{
    let mut x = start;
    let mut back = 0;
    for k in 0..CELLS {
        // by the link that the cell was not entered by
        let direction = first_link(at(drawing, x) ^ back);
        x = beside(columns, x, direction);
        if x == start {
            return k + 1;
        }
        if x >= CELLS {
            return 0;
        }
        back = 1 << (direction + 1) % 4;
    }
    0
}

// Every cell fits, and the links from one white cell lead through all of them.
pub(crate) fn solves(columns: usize, record: &[u8], drawing: &[u8]) -> bool
    requires { (0 < columns) × (columns ≤ 12) × (length drawing.now ≤ 12) }
{
    let mut white = 0;
    let mut start = 0;
    for x in 0..drawing.len() {
        if !fits(columns, record, drawing, x) {
            return false;
        }
        if drawing[x] < BLACK {
            white += 1;
            start = x;
        }
    }
    white != 0 && loop_length(columns, drawing, start) == white
}
