// From values to bytes: Z gives black, and a link is drawn where E holds either way. S, Q and T are not looked at.
ghost use Rattle.std.specs.Prelude.{◌≡◌, ◌≤◌, ◌<◌, length};
ghost use Rattle.answers.specs.Lent.{filled};
ghost use Rattle.rules.specs.Directions.{bit};
ghost use Rattle.rules.specs.Record.{size};
ghost use Rattle.rules.specs.Read.{rules_board};
ghost use Rattle.rules.specs.Drawing.{link_sum};
ghost use Rattle.encoder.specs.Variables.{variable_count};
ghost use Rattle.encoder.specs.Decoding.{drawn_link, value_of, decoded, drawn_at};
ghost use Rattle.encoder_numbers.specs.Tables.{OpenCell};

use encoder_numbers::cells::link_number;
use encoder_numbers::numbering::Numbering;
use encoder_numbers::tables::{open_neighbour, sizes_below};
use judge_cells::cells::is_open;
use rules::Direction;
use rules_board::opposite;

// 1 where a link is drawn from the open cell x, else 0.
fn link_bit(numbering: &Numbering, values: &[u8], x: usize, d: Direction) -> u8
    requires valued { length values.now ≡ variable_count (rules_board numbering.now.board) }
    requires open_cell { OpenCell numbering.now.board.grid numbering.now.board.«record».now x }
    ensures { let b = rules_board numbering.now.board in result ≡ bit (drawn_link b (value_of b values.now) x d) }
{
    let Some(y) = open_neighbour(&numbering.board, x, d) else {
        return 0;
    };
    let out = link_number(numbering, x, d, y);
    let into = link_number(numbering, y, opposite(d), x);
    u8::from(values[out - 1] == 1 || values[into - 1] == 1)
}

// The links of the open cell x: 1 north, 2 east, 4 south, 8 west.
fn link_sum(numbering: &Numbering, values: &[u8], x: usize) -> u8
    requires valued { length values.now ≡ variable_count (rules_board numbering.now.board) }
    requires open_cell { OpenCell numbering.now.board.grid numbering.now.board.«record».now x }
    ensures { let b = rules_board numbering.now.board in result ≡ link_sum (drawn_link b (value_of b values.now) x) }
{
    let north = link_bit(numbering, values, x, Direction::North);
    let east = link_bit(numbering, values, x, Direction::East);
    let south = link_bit(numbering, values, x, Direction::South);
    let west = link_bit(numbering, values, x, Direction::West);
    north + east * 2 + south * 4 + west * 8
}

// The byte of a cell: black and the links add up; a cell that is not open is 0x20.
fn byte_at(numbering: &Numbering, values: &[u8], x: usize) -> u8
    requires valued { length values.now ≡ variable_count (rules_board numbering.now.board) }
    requires x_bound { x < size numbering.now.board.grid }
    ensures { let b = rules_board numbering.now.board in result ≡ drawn_at b (value_of b values.now) x }
{
    if !is_open(&numbering.board, x) {
        return 0x20;
    }
    let links = link_sum(numbering, values, x);
    let z = sizes_below(numbering, x).opens;
    if values[z] == 1 { 0x10 + links } else { links }
}

// Draws each cell.
pub fn draw(numbering: &Numbering, values: &[u8], drawing: &mut [u8])
    requires valued { length values.now ≡ variable_count (rules_board numbering.now.board) }
    requires g_in_bounds { size numbering.now.board.grid ≤ length drawing.old }
    ensures { drawing.new ≡ filled drawing.old (decoded (rules_board numbering.now.board) values.now) }
{
    for x in 0..numbering.board.grid.size() {
        drawing[x] = byte_at(numbering, values, x);
    }
}
