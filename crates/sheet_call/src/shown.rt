// What a line of a sheet shows at a cell: three characters.
ghost use Rattle.std.specs.Prelude.{◌≡◌, ◌<◌};
ghost use Rattle.rules.specs.Record.{size};
ghost use Rattle.rules.specs.Read.{puzzle_on};
ghost use Rattle.sheet.specs.Sheet.{letter, side, clue_text, open_text, TwoDigits, cell_text, under_text, shown_at};
ghost use Rattle.sheet_call.specs.Characters.{characters_of};

use super::Characters;
use judge_cells::drawing::linked;
use rules::board::Drawn;
use rules::{Cell, Direction};

fn letter(d: Direction) -> u8
    ensures { result ≡ letter d }
{
    match d {
        Direction::North => b'N',
        Direction::East => b'E',
        Direction::South => b'S',
        Direction::West => b'W',
    }
}

// `-` for a link, else a space.
fn side(v: u8, d: Direction) -> u8
    ensures { result ≡ side v d }
{
    if linked(v, d) { b'-' } else { b' ' }
}

// A clue: its letter, and the number right-aligned in two.
#[tactic(auto, using(sheet::proofs::Widths::narrow_number, sheet::proofs::Widths::wide_number))]
fn clue_text(d: Direction, n: u8) -> Characters
    requires { n < 100 }
    ensures { characters_of result ≡ clue_text d n }
{
    Characters {
        left: letter(d),
        middle: if n < 10 { b' ' } else { b'0' + n / 10 },
        right: b'0' + n % 10,
    }
}

// An open cell, by its byte: black, or white with its links to the west and to the east.
fn open_text(v: u8) -> Characters
    ensures { characters_of result ≡ open_text v }
{
    if v == 0x10 {
        return Characters {
            left: b' ',
            middle: b'#',
            right: b' ',
        };
    }
    Characters {
        left: side(v, Direction::West),
        middle: b'+',
        right: side(v, Direction::East),
    }
}

fn cell_text(cell: Cell, v: u8) -> Characters
    requires { TwoDigits cell }
    ensures { characters_of result ≡ cell_text cell v }
{
    match cell {
        Cell::Open => open_text(v),
        Cell::Clue(d, n) => clue_text(d, n),
        Cell::Shaded => Characters {
            left: b'.',
            middle: b'.',
            right: b'.',
        },
    }
}

// What stands under a cell: `|` under its middle for a link to the south.
fn under_text(v: u8) -> Characters
    ensures { characters_of result ≡ under_text v }
{
    Characters {
        left: b' ',
        middle: if linked(v, Direction::South) {
            b'|'
        } else {
            b' '
        },
        right: b' ',
    }
}

// What line i shows at cell x: the even lines are the cell rows, the odd ones the lines between rows.
pub fn shown_at(drawn: &Drawn, i: usize, x: usize) -> Characters
    requires { x < size drawn.now.board.grid }
    ensures { characters_of result ≡ shown_at (puzzle_on drawn.now.board) drawn.now.drawing.now i x }
{
    if i % 2 == 0 {
        cell_text(drawn.board.cell(x), drawn.drawing[x])
    } else {
        under_text(drawn.drawing[x])
    }
}
