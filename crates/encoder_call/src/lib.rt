// The encoder: document 01's clauses of a record's grid, in order, written into a lent list.
#![tactic(auto)]

ghost use Rattle.std.specs.Prelude.{◌≡◌};
ghost use Rattle.answers.specs.Outcome.{first_refusal};
ghost use Rattle.answers.specs.Lent.{filled, unless_refused};
ghost use Rattle.rules.specs.Read.{rules_board};
ghost use Rattle.encoder.specs.Clauses.{clause_list};
ghost use Rattle.encoder.specs.Encoding.{encoder_grid_rows, encoder_answer, encoder_leaves};
ghost use Rattle.encoder_size.specs.Counts.{counts_of};
ghost use Rattle.encoder_call.specs.declared.EncodeRefusal.TheVariants.{Record};
ghost use Rattle.encoder_call.specs.Answer.{encode_refusal_outcome, counts_outcome, encoded_outcome, Encodable};

use answers::{Outcome, Writer, refused};
use encoder_numbers::TABLE;
use encoder_numbers::numbering::Numbering;
use encoder_numbers::tables::fill;
use encoder_size::{Counts, count};
use families::all_families;
use rules::RecordRefusal;
use rules::board::Board;
use rules::record::read;

mod families; // the families of clauses, in order

// The families of clauses that go cell by cell.
#[derive(Clone, Copy, Debug, PartialEq, Eq)]
pub enum Family {
    Touching,
    Links,
    Start,
    Distance,
}

// Why a record is refused: the reader's refusal, else 6 with the elements needed.
#[derive(Clone, Copy, Debug, PartialEq, Eq)]
pub enum EncodeRefusal {
    Record(RecordRefusal),
    TooShort(usize),
}

// Document 01's number, and the value beside it.
impl From<EncodeRefusal> for Outcome {
    ghost from_gives = { λ r t. t ≡ encode_refusal_outcome r };

    fn from(refusal: EncodeRefusal) -> Outcome {
        match refusal {
            EncodeRefusal::Record(r) => r.into(),
            EncodeRefusal::TooShort(n) => refused(6, n as u64),
        }
    }
}

impl From<RecordRefusal> for EncodeRefusal {
    ghost from_gives = { λ r e. e ≡ Record r };

    fn from(refusal: RecordRefusal) -> EncodeRefusal {
        EncodeRefusal::Record(refusal)
    }
}

// 6, and the list, with the counts that `encoder_size::count` gives.
pub fn encode_grid(board: &Board, counts: Counts, list: &mut [i32]) -> Result<Counts, EncodeRefusal>
    requires encodable { Encodable board.now.grid board.now.«record».now }
    requires counts_value { counts ≡ counts_of (rules_board board.now) }
    ensures result_value { let b = rules_board board.now in
        encoded_outcome result ≡ first_refusal (encoder_grid_rows b list.old) (counts_outcome (counts_of b)) }
    ensures list_after { let b = rules_board board.now in let before = list.old in
        list.new ≡ unless_refused (first_refusal (encoder_grid_rows b before) (counts_outcome (counts_of b))) before (filled before (clause_list b)) }
{
    if list.len() < counts.elements {
        return Err(EncodeRefusal::TooShort(counts.elements));
    }
    let mut table = [0usize; TABLE];
    let sizes = fill(board, &mut table);
    let numbering = Numbering {
        board: *board,
        sizes,
        table: &table,
    };
    let mut out = Writer::new(list);
    all_families(&mut out, &numbering);
    Ok(counts)
}

// Writes the clauses of a record's grid, or names the first cause against it.
pub fn encode(record: &[u8], list: &mut [i32]) -> Result<Counts, EncodeRefusal>
    ensures result_value { encoded_outcome result ≡ encoder_answer «record».now list.old }
    ensures list_after { list.new ≡ encoder_leaves «record».now list.old }
{
    let board = read(record)?;
    encode_grid(&board, count(&board), list)
}
