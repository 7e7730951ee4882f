// The decoder: document 01's "Decoding". Values of the variables are drawn, and the drawing is handed out exactly if the judge says yes.
#![tactic(auto)]

ghost use Rattle.std.specs.Prelude.{◌≡◌, length, get_or, ltb};
ghost use Rattle.answers.specs.First.{first_where};
ghost use Rattle.answers.specs.Outcome.{first_refusal};
ghost use Rattle.answers.specs.Lent.{unless_refused};
ghost use Rattle.rules.specs.Record.{size};
ghost use Rattle.rules.specs.Read.{rules_board};
ghost use Rattle.rules.specs.Judge.{judge_rows, says_yes};
ghost use Rattle.encoder.specs.Variables.{variable_count};
ghost use Rattle.encoder.specs.Decoding.{decoded, decoder_grid_rows, decoder_answer, decoder_leaves};
ghost use Rattle.decoder.specs.Answer.{value_rows, decoded_outcome};

use drawing::draw;
use encoder_numbers::TABLE;
use encoder_numbers::numbering::Numbering;
use encoder_numbers::tables::{fill, variable_count};
use judge::judge_rules;
use rules::board::{Board, Drawn};
use rules::record::read;
use rules::{MOST_CELLS, RecordRefusal, RuleRefusal};

pub mod outcome; // the outcomes in document 01's numbers
mod drawing; // from values to bytes

// Why values are turned down: the record's refusal, else 8, 7 and 9 of document 01's table, else the rule that the drawing breaks.
#[derive(Clone, Copy, Debug, PartialEq, Eq)]
pub enum DecodeRefusal {
    Record(RecordRefusal),
    ValuesLength,
    DrawingLength,
    // The number of the first variable whose value is not 0 or 1.
    Value(usize),
    Rule(RuleRefusal),
}

// 9: the first value that is not 0 or 1. (A function of its own as compiled too: its loop takes most of a call, and its speed depends on where it stands.)
#[inline(never)]
fn wrong_value(values: &[u8]) -> Option<usize>
    ensures { result ≡ first_where (λ i. ltb 1 (get_or values.now i 0)) (length values.now) }
{
    values.iter().position(|value| *value > 1)
}

// 8, 7 and 9, in order, with V, N and the length of the lent drawing.
fn check(values: &[u8], v: usize, n: usize, lent: usize) -> Result<(), DecodeRefusal>
    ensures { decoded_outcome result ≡ first_refusal (value_rows v n values.now lent) says_yes }
{
    if values.len() != v {
        return Err(DecodeRefusal::ValuesLength);
    }
    if lent != n {
        return Err(DecodeRefusal::DrawingLength);
    }
    match wrong_value(values) {
        Some(i) => Err(DecodeRefusal::Value(i + 1)),
        None => Ok(()),
    }
}

// Draws into an array of its own, and hands the drawing out if the judge says yes.
fn judged(numbering: &Numbering, values: &[u8], drawing: &mut [u8]) -> Result<(), DecodeRefusal>
    requires valued { length values.now ≡ variable_count (rules_board numbering.now.board) }
    requires drawing_len { length drawing.old ≡ size numbering.now.board.grid }
    ensures result_value { let b = rules_board numbering.now.board in let drawn = decoded b values.now in
        decoded_outcome result ≡ first_refusal (judge_rows b drawn) says_yes }
    ensures drawing_after { let b = rules_board numbering.now.board in let drawn = decoded b values.now in
        drawing.new ≡ unless_refused (first_refusal (judge_rows b drawn) says_yes) drawing.old drawn }
{
    let mut own = [0u8; MOST_CELLS];
    draw(numbering, values, &mut own);
    let board = numbering.board;
    let drawn = &own[..board.grid.size()];
    judge_rules(&Drawn {
        board,
        drawing: drawn,
    })?;
    drawing.copy_from_slice(drawn);
    Ok(())
}

// 8, 7, 9 and 10 to 15, in order, over a grid that was read.
pub fn decode_grid(board: &Board, values: &[u8], drawing: &mut [u8]) -> Result<(), DecodeRefusal>
    ensures result_value { let b = rules_board board.now in
        decoded_outcome result ≡ first_refusal (decoder_grid_rows b values.now drawing.old) says_yes }
    ensures drawing_after { let b = rules_board board.now in
        let t = first_refusal (decoder_grid_rows b values.now drawing.old) says_yes in
        drawing.new ≡ unless_refused t drawing.old (decoded b values.now) }
{
    let mut table = [0usize; TABLE];
    let sizes = fill(board, &mut table);
    let v = variable_count(board, sizes);
    check(values, v, board.grid.size(), drawing.len())?;
    let numbering = Numbering {
        board: *board,
        sizes,
        table: &table,
    };
    judged(&numbering, values, drawing)
}

// Draws the values, or names the first cause against it.
pub fn decode(record: &[u8], values: &[u8], drawing: &mut [u8]) -> Result<(), DecodeRefusal>
    ensures result_value { decoded_outcome result ≡ decoder_answer «record».now values.now drawing.old }
    ensures drawing_after { drawing.new ≡ decoder_leaves «record».now values.now drawing.old }
{
    let board = read(record)?;
    decode_grid(&board, values, drawing)
}
