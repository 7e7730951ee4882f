// What a grid is, and when a drawing is a solution: document 01's "The grid record" and "The drawing and its judge", with document 02's E4,
// E5 and E12.
#![tactic(auto)]

#[derive(Clone, Copy, Debug, PartialEq, Eq)]
pub enum Direction {
    North,
    East,
    South,
    West,
}

// A cell is open, or a clue that carries a direction and a number, or shaded: neither black nor on the loop, and it says nothing.
#[derive(Clone, Copy, Debug, PartialEq, Eq)]
pub enum Cell {
    Open,
    Clue(Direction, u8),
    Shaded,
}

// How the cells stand in a record, with the limits of sides and numbers: a byte a cell, or a word of two bytes.
#[derive(Clone, Copy, Debug, PartialEq, Eq)]
pub enum Layout {
    Byte,
    Word,
}

// A record's kind: 1; 2, with larger sides and numbers; 3, as 1 with lines that stop before clue cells.
#[derive(Clone, Copy, Debug, PartialEq, Eq)]
pub enum Kind {
    One,
    Two,
    Three,
}

// The most cells that a grid has: 45 times 45.
pub const MOST_CELLS: usize = 2025;

// The parsed grid: its kind, which code above this crate does not see, and its sides. The cells stay in the record.
#[derive(Clone, Copy, Debug, PartialEq, Eq)]
pub struct Grid {
    kind: Kind,
    pub rows: usize,
    pub columns: usize,
}

// Why a record is refused: 1 to 5 of document 01's table.
#[derive(Clone, Copy, Debug, PartialEq, Eq)]
pub enum RecordRefusal {
    Length,
    Kind,
    Side,
    Size,
    NotACell(usize),
}

// The rule that a drawing of N bytes breaks: 10 to 15 of document 01's table, with the cell.
#[derive(Clone, Copy, Debug, PartialEq, Eq)]
pub enum RuleRefusal {
    DrawingByte(usize),
    Touching(usize),
    ClueNotMet(usize),
    LinkUnmatched(usize),
    NotTwoLinks(usize),
    // 0 where there is no white cell.
    NotOneLoop(usize),
}

// Why a drawing is turned down: the record's refusal, else 7 of document 01's table, else the rule that is broken.
#[derive(Clone, Copy, Debug, PartialEq, Eq)]
pub enum JudgeRefusal {
    Record(RecordRefusal),
    DrawingLength,
    Rule(RuleRefusal),
}

pub mod board; // a grid with its record
pub mod record; // the reader of a grid record
pub mod outcome; // the outcomes in document 01's numbers
