// The numbers of the variables: document 01's "Variables".
#![tactic(auto)]

use rules::MOST_CELLS;

// How many open cells, E variables and T variables some cells have. Those of all cells are F, A and the number of T variables.
#[derive(Clone, Copy, Debug, Default, PartialEq, Eq)]
pub struct Sizes {
    pub opens: usize,
    pub links: usize,
    pub counts: usize,
}

// The length of a table that holds, for each cell, the sizes of the cells before it.
pub const TABLE: usize = 3 * MOST_CELLS;

// What the clauses of x say of its neighbour y in a direction; zeros where there is no open one.
#[derive(Clone, Copy, Debug, Default, PartialEq, Eq)]
pub struct NeighbourNumbers {
    // x→y, y→x, Zy and Q(y,0).
    pub out: usize,
    pub back: usize,
    pub black: usize,
    pub distance: usize,
}

// An open cell x and its neighbours.
#[derive(Clone, Copy, Debug, PartialEq, Eq)]
pub struct CellNumbers {
    // The rank of x, Zx, Sx and Q(x,0).
    pub rank: usize,
    pub black: usize,
    pub start: usize,
    pub distance: usize,
    pub north: NeighbourNumbers,
    pub east: NeighbourNumbers,
    pub south: NeighbourNumbers,
    pub west: NeighbourNumbers,
}

pub mod numbering; // a board with what the numbers of its variables go by
pub mod tables; // how many variables a grid has, and the table that their numbers go by
pub mod cells; // the numbers of a cell's variables and of its neighbours'
