// What the judge looks at in one cell, and the first cell at which it finds something.
#![tactic(auto)]

// What the judge seeks cell by cell.
#[derive(Clone, Copy, Debug, PartialEq, Eq)]
pub enum Test {
    DrawingByte,
    Touching,
    ClueNotMet,
    LinkUnmatched,
    NotTwoLinks,
    White,
}

pub mod drawing; // the bytes of a drawing
pub mod cells; // the tests of a cell
