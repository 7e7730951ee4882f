// A board with what the numbers of its variables go by.
ghost use Rattle.encoder_numbers.specs.Tables.{Tables};

use super::Sizes;
use rules::board::Board;

// A board, the sizes of all its cells, and the table of the sizes before each cell.
#[derive(Clone, Copy)]
pub struct Numbering<'a> {
    pub board: Board<'a>,
    pub sizes: Sizes,
    pub table: &'a [usize],
    pub ghost tables: { Tables board.grid board.«record».now sizes table.now },
}
