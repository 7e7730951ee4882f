// The reader of a grid record: document 01's "The grid record", and document 02's E4, E5 and E12. No code above it looks at a kind.
ghost use Rattle.std.specs.Prelude.{◌≡◌, ◌+◌, ◌<◌, length, ok_or, IfOk};
ghost use Rattle.answers.specs.First.{first_where};
ghost use Rattle.rules.specs.declared.Layout.TheVariants.{Byte, Word};
ghost use Rattle.rules.specs.declared.RecordRefusal.TheVariants.{Kind as OtherKind};
ghost use Rattle.rules.specs.Record.{layout_of, cell_bytes, read_kind, read_cell, not_allowed, word, size, cell_code, is_side, wrong_cell};
ghost use Rattle.rules.specs.Record.{Sides, RecordSized, record_answer};
ghost use Rattle.rules.specs.Read.{read_outcome};
ghost use Rattle.rules.specs.Board.{stops_before_clues};

use super::board::Board;
use super::{Cell, Direction, Grid, Kind, Layout, RecordRefusal};

// The cell of a code of one byte: 0 is open; the upper four bits of a clue tell the direction, the lower four the number; 0x50 is shaded.
fn read_byte(c: u16) -> Option<Cell>
    ensures { result ≡ read_cell Byte c }
{
    match c {
        0 => Some(Cell::Open),
        0x10..=0x1f => Some(Cell::Clue(Direction::North, (c % 16) as u8)),
        0x20..=0x2f => Some(Cell::Clue(Direction::East, (c % 16) as u8)),
        0x30..=0x3f => Some(Cell::Clue(Direction::South, (c % 16) as u8)),
        0x40..=0x4f => Some(Cell::Clue(Direction::West, (c % 16) as u8)),
        0x50 => Some(Cell::Shaded),
        0x01..=0x0f | 0x51..=0xffff => None,
    }
}

// The cell of a code of two bytes: the lower twelve bits of a clue tell the number, 0 to 44; 0x5000 is shaded.
fn read_word(c: u16) -> Option<Cell>
    ensures { result ≡ read_cell Word c }
{
    match c {
        0 => Some(Cell::Open),
        0x1000..=0x102c => Some(Cell::Clue(Direction::North, (c % 4096) as u8)),
        0x2000..=0x202c => Some(Cell::Clue(Direction::East, (c % 4096) as u8)),
        0x3000..=0x302c => Some(Cell::Clue(Direction::South, (c % 4096) as u8)),
        0x4000..=0x402c => Some(Cell::Clue(Direction::West, (c % 4096) as u8)),
        0x5000 => Some(Cell::Shaded),
        0x0001..=0x0fff
        | 0x102d..=0x1fff
        | 0x202d..=0x2fff
        | 0x302d..=0x3fff
        | 0x402d..=0x4fff
        | 0x5001..=0xffff => None,
    }
}

// Two bytes, little-endian.
fn word_at(record: &[u8], i: usize) -> u16
    requires { i + 1 < length «record».now }
    ensures { result ≡ word «record».now i }
{
    let low = u16::from(record[i]);
    let high = u16::from(record[i + 1]);
    low + 256 * high
}

impl Grid {
    // N, the number of cells.
    pub fn size(self) -> usize
        requires { Sides self }
        ensures { result ≡ size self }
    {
        self.rows * self.columns
    }

    // The code of the cell numbered x: its byte, or its two bytes.
    pub(crate) fn code(self, record: &[u8], x: usize) -> u16
        requires record_sized { RecordSized self «record».now }
        requires x_bound { x < size self }
        ensures { result ≡ cell_code (layout_of self.kind) «record».now x }
    {
        match self.kind.layout() {
            Layout::Byte => record[6 + x].into(),
            Layout::Word => word_at(record, 6 + 2 * x),
        }
    }

    // Do its lines stop before clue cells? They do in kind 3.
    pub fn stops_before_clues(self) -> bool
        ensures { result ≡ stops_before_clues self.kind }
    {
        match self.kind {
            Kind::One | Kind::Two => false,
            Kind::Three => true,
        }
    }
}

// The first cell whose code is not allowed.
fn wrong_cell(g: Grid, record: &[u8]) -> Option<usize>
    requires { RecordSized g «record».now }
    ensures { result ≡ first_where (wrong_cell g «record».now) (size g) }
{
    let layout = g.kind.layout();
    for x in 0..g.size() {
        if layout.read_cell(g.code(record, x)).is_none() {
            return Some(x);
        }
    }
    None
}

// The kind that a number tells.
impl TryFrom<u16> for Kind {
    type Error = RecordRefusal;

    ghost try_from_gives = { λ n r. r ≡ ok_or (read_kind n) OtherKind };

    fn try_from(n: u16) -> Result<Kind, RecordRefusal> {
        match n {
            1 => Ok(Kind::One),
            2 => Ok(Kind::Two),
            3 => Ok(Kind::Three),
            0 | 4..=0xffff => Err(RecordRefusal::Kind),
        }
    }
}

impl Kind {
    pub(crate) fn layout(self) -> Layout
        ensures { result ≡ layout_of self }
    {
        match self {
            Kind::One | Kind::Three => Layout::Byte,
            Kind::Two => Layout::Word,
        }
    }
}

impl Layout {
    fn is_side(self, n: usize) -> bool
        ensures { result ≡ is_side self n }
    {
        match self {
            Layout::Byte => 1 <= n && n <= 24,
            Layout::Word => 1 <= n && n <= 45,
        }
    }

    // What a cell's code is.
    pub(crate) fn read_cell(self, code: u16) -> Option<Cell>
        ensures { result ≡ read_cell self code }
    {
        match self {
            Layout::Byte => read_byte(code),
            Layout::Word => read_word(code),
        }
    }

    // The bytes of a cell.
    pub(crate) fn cell_bytes(self) -> usize
        ensures { result ≡ cell_bytes self }
    {
        match self {
            Layout::Byte => 1,
            Layout::Word => 2,
        }
    }
}

// Refusals 1 to 5, in order.
pub fn read(record: &[u8]) -> Result<Board<'_>, RecordRefusal>
    ensures told { read_outcome result ≡ record_answer «record».now }
    ensures same_record { IfOk result (λ b. b.«record».now ≡ «record».now) }
{
    if record.len() < 6 || word_at(record, 0) as usize != record.len() {
        return Err(RecordRefusal::Length);
    }
    let kind = Kind::try_from(word_at(record, 2))?;
    let layout = kind.layout();
    let rows = record[4] as usize;
    let columns = record[5] as usize;
    if !layout.is_side(rows) || !layout.is_side(columns) {
        return Err(RecordRefusal::Side);
    }
    if record.len() != 6 + layout.cell_bytes() * (rows * columns) {
        return Err(RecordRefusal::Size);
    }
    let grid = Grid {
        kind,
        rows,
        columns,
    };
    match wrong_cell(grid, record) {
        Some(x) => Err(RecordRefusal::NotACell(x)),
        None => Ok(Board { grid, record }),
    }
}
