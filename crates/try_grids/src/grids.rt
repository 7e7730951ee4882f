// The records that are tried.
ghost use Rattle.std.specs.Prelude.{◌*◌, ◌<◌, ◌≤◌};

use super::plain_rules::SHADED;

// The most bytes of a record of kind 1 or 3: 24×24 has 6 + 576.
pub(crate) const BYTES: usize = 582;

// The cell that a digit makes: 0 open, 1 to 8 clues of every direction with number 0 and 1, 9 shaded, 10 to 13 clues with number 2, 14 to 16
// shaded, then open again.
fn cell(digit: u64) -> u8 {
    match digit {
        1..=8 => (0x10 * (1 + (digit - 1) % 4) + (digit - 1) / 4) as u8,
        10..=13 => (0x10 * (digit - 9) + 2) as u8,
        9 | 14..=16 => SHADED,
        _ => 0,
    }
}

// The record, of a kind with one byte a cell, of a grid whose cells are made of a number's digits to some base, the lowest first; zeros
// after it.
pub(crate) fn numbered(kind: u8, rows: usize, columns: usize, base: u64, number: u64) -> [u8; BYTES]
    requires rows_bound { (rows ≤ 24) × (columns ≤ 24) × (rows * columns ≤ 576) }
    requires base_nonzero { 0 < base }
{
    let end = 6 + rows * columns;
    let mut record = [0u8; BYTES];
    record[0] = (end % 256) as u8;
    record[1] = (end / 256) as u8;
    record[2] = kind;
    record[4] = rows as u8;
    record[5] = columns as u8;
    let mut rest = number;
    for i in 6..end {
        record[i] = cell(rest % base);
        rest = rest / base;
    }
    record
}

// The open 45×45 record of kind 2: 6 + 2 × 2,025 bytes.
pub(crate) fn sheet() -> [u8; 4056] {
    let mut record = [0u8; 4056];
    record[0] = 0xd8;
    record[1] = 0x0f;
    record[2] = 2;
    record[4] = 45;
    record[5] = 45;
    record
}
