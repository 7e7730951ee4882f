// The bytes of a drawing: black cells and links.
ghost use Rattle.std.specs.Prelude.{◌≡◌, eqb};
ghost use Rattle.rules.specs.Directions.{bit, degree, other, pick};
ghost use Rattle.rules.specs.Drawing.{weight, byte_link};

use rules::Direction;

pub fn weight(d: Direction) -> u8
    ensures { result ≡ weight d }
{
    match d {
        Direction::North => 1,
        Direction::East => 2,
        Direction::South => 4,
        Direction::West => 8,
    }
}

// Has a cell's byte a link in a direction?
pub fn linked(b: u8, d: Direction) -> bool
    ensures { result ≡ byte_link b d }
{
    b / weight(d) % 2 == 1
}

// The number of a cell's links.
pub fn degree(b: u8) -> usize
    ensures { result ≡ degree (byte_link b) }
{
    usize::from(linked(b, Direction::North))
        + usize::from(linked(b, Direction::East))
        + usize::from(linked(b, Direction::South))
        + usize::from(linked(b, Direction::West))
}

// The first of three ways that is linked, or the last.
fn first_of(b: u8, x: Direction, y: Direction, z: Direction) -> Direction
    ensures { result ≡ pick (byte_link b x) (byte_link b y) x y z }
{
    if linked(b, x) {
        x
    } else if linked(b, y) {
        y
    } else {
        z
    }
}

// The link that is not d, of a byte that has two.
pub fn other(b: u8, d: Direction) -> Direction
    ensures { result ≡ other (byte_link b) d }
{
    match d {
        Direction::North => first_of(b, Direction::East, Direction::South, Direction::West),
        Direction::East => first_of(b, Direction::North, Direction::South, Direction::West),
        Direction::South => first_of(b, Direction::North, Direction::East, Direction::West),
        Direction::West => first_of(b, Direction::North, Direction::East, Direction::South),
    }
}

// 1 for a black cell's byte, 0 for any other.
pub fn black_bit(b: u8) -> usize
    ensures { result ≡ bit (eqb b 0x10) }
{
    usize::from(b == 0x10)
}
