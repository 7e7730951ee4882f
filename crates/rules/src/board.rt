// A grid with the record that its cells stand in.
ghost use Rattle.std.specs.Prelude.{◌≡◌, ◌<◌, length, get_or};
ghost use Rattle.rules.specs.declared.Cell.TheVariants.{Open};
ghost use Rattle.rules.specs.Record.{size, puzzle, RecordFits};
ghost use Rattle.rules.specs.Board.{open_cell};

use super::{Cell, Grid};

// An accepted record: its grid, and the bytes in which the grid's cells stand.
#[derive(Clone, Copy)]
pub struct Board<'a> {
    pub grid: Grid,
    pub record: &'a [u8],
    pub ghost fits: { RecordFits grid «record».now },
}

impl Board<'_> {
    // The cell numbered x. The record's codes are allowed, so there is one.
    pub fn cell(&self, x: usize) -> Cell
        requires { x < size self.now.grid }
        ensures { result ≡ get_or (puzzle self.now.grid self.now.«record».now).cells x Open }
    {
        self.grid
            .kind
            .layout()
            .read_cell(self.grid.code(self.record, x))
            .unwrap()
    }

    // Is the cell numbered x open? It is exactly if its first byte and its last, which may be one, are 0. The layout tells only where
    // they are: this is asked most, and reading the code costs more.
    pub fn is_open(&self, x: usize) -> bool
        requires { x < size self.now.grid }
        ensures { result ≡ open_cell (get_or (puzzle self.now.grid self.now.«record».now).cells x Open) }
    {
        let bytes = self.grid.kind.layout().cell_bytes();
        let first = 6 + bytes * x;
        let last = first + bytes - 1;
        let sum = self.record[first] as usize + self.record[last] as usize;
        sum == 0
    }
}

// A board with a drawing of its size.
#[derive(Clone, Copy)]
pub struct Drawn<'a> {
    pub board: Board<'a>,
    pub drawing: &'a [u8],
    pub ghost drawn: { length drawing.now ≡ size board.grid },
}
