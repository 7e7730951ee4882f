// The library as a C program sees it. Every function returns 0 if the call was answered, else the refusal's number, and writes all four
// words of `answer`: on a refusal the value beside it and three zeros, else what the call answers, filled up with zeros.
#![tactic(auto)]

ghost use Rattle.std.specs.Prelude.{◌≡◌};
ghost use Rattle.answers.specs.Outcome.{words, words as four_words};
ghost use Rattle.cnf_batch.specs.Call.{batch_answer};
ghost use Rattle.rules.specs.Judge.{judge_answer};
ghost use Rattle.sheet.specs.SheetCall.{sheet_answer, sheet_leaves};
ghost use Rattle.dimacs.specs.Calls.{writer_answer, writer_leaves, reader_answer, reader_leaves};
ghost use Rattle.encoder.specs.Encoding.{encoder_answer, encoder_leaves};
ghost use Rattle.encoder.specs.Decoding.{decoder_answer, decoder_leaves};
ghost use Rattle.search.specs.Trail.{slices};
ghost use Rattle.search.specs.Call.{search_on, by_search, by_next};
ghost use Rattle.solver.specs.Tally.{tally_answer, tally_leaves};
ghost use Rattle.solver_tally.specs.Answer.{asked, lent_of};

use answers::Outcome;

// Is the drawing a solution of the record's grid? Answered: yes, four zeros.
#[unsafe(no_mangle)]
pub extern "C" fn yajilin_judge(record: &[u8], drawing: &[u8], answer: &mut [u64; 4]) -> u64
    ensures value { result ≡ (judge_answer «record».now drawing.now).number }
    ensures answer_after { answer.new ≡ words (judge_answer «record».now drawing.now) }
{
    let verdict = judge::judge(record, drawing);
    Outcome::from(verdict).write(answer)
}

// The proof sheet of a drawing that the judge agrees with. Answered: the count of bytes written.
#[unsafe(no_mangle)]
pub extern "C" fn yajilin_sheet(
    record: &[u8],
    drawing: &[u8],
    sheet: &mut [u8],
    answer: &mut [u64; 4],
) -> u64
    ensures value { result ≡ (sheet_answer «record».now drawing.now sheet.old).number }
    ensures answer_after { answer.new ≡ words (sheet_answer «record».now drawing.now sheet.old) }
    ensures sheet_after { sheet.new ≡ sheet_leaves «record».now drawing.now sheet.old }
{
    let written = sheet_call::write(record, drawing, sheet);
    Outcome::from(written).write(answer)
}

// The DIMACS text of V and a clause list. Answered: the count of bytes written.
#[unsafe(no_mangle)]
pub extern "C" fn yajilin_write(
    variables: u64,
    list: &[i32],
    text: &mut [u8],
    answer: &mut [u64; 4],
) -> u64
    ensures value { result ≡ (writer_answer variables list.now text.old).number }
    ensures answer_after { answer.new ≡ words (writer_answer variables list.now text.old) }
    ensures text_after { text.new ≡ writer_leaves variables list.now text.old }
{
    let written = dimacs_writer::write(variables as usize, list, text);
    Outcome::from(written).write(answer)
}

// Which of sixty-four value lists satisfy a clause list? Bit i of a variable's word is its value in list i. Answered: the word whose bit i says
// that list i does. (In its contract the parameter hides the `words` of an outcome, so that has another name.)
#[unsafe(no_mangle)]
pub extern "C" fn yajilin_satisfied(
    variables: u64,
    list: &[i32],
    words: &[u64],
    answer: &mut [u64; 4],
) -> u64
    ensures value { result ≡ (batch_answer variables list.now words.now).number }
    ensures answer_after { answer.new ≡ four_words (batch_answer variables list.now words.now) }
{
    let satisfied = cnf_batch::satisfied(variables as usize, list, words);
    Outcome::from(satisfied).write(answer)
}

// The clause list of a DIMACS text. Answered: the count of elements written, V, the number of clauses.
#[unsafe(no_mangle)]
pub extern "C" fn yajilin_read(text: &[u8], list: &mut [i32], answer: &mut [u64; 4]) -> u64
    ensures value { result ≡ (reader_answer text.now list.old).number }
    ensures answer_after { answer.new ≡ words (reader_answer text.now list.old) }
    ensures list_after { list.new ≡ reader_leaves text.now list.old }
{
    let reading = dimacs_reader::read(text, list);
    Outcome::from(reading).write(answer)
}

// The clauses of the record's grid. Answered: the count of elements written, V, the number of clauses.
#[unsafe(no_mangle)]
pub extern "C" fn yajilin_encode(record: &[u8], list: &mut [i32], answer: &mut [u64; 4]) -> u64
    ensures value { result ≡ (encoder_answer «record».now list.old).number }
    ensures answer_after { answer.new ≡ words (encoder_answer «record».now list.old) }
    ensures list_after { list.new ≡ encoder_leaves «record».now list.old }
{
    let encoded = encoder_call::encode(record, list);
    Outcome::from(encoded).write(answer)
}

// Draws the values of a grid's variables. Answered: the drawing is a solution and stands in `drawing`; four zeros.
#[unsafe(no_mangle)]
pub extern "C" fn yajilin_decode(
    record: &[u8],
    values: &[u8],
    drawing: &mut [u8],
    answer: &mut [u64; 4],
) -> u64
    ensures value { result ≡ (decoder_answer «record».now values.now drawing.old).number }
    ensures answer_after { answer.new ≡ words (decoder_answer «record».now values.now drawing.old) }
    ensures drawing_after { drawing.new ≡ decoder_leaves «record».now values.now drawing.old }
{
    let decoded = decoder::decode(record, values, drawing);
    Outcome::from(decoded).write(answer)
}

// The search from a trail. Answered: 1 found, 2 none, 3 halted; the steps that this call made; the used count; 0.
#[unsafe(no_mangle)]
pub extern "C" fn yajilin_search(
    variables: u64,
    list: &[i32],
    trail: &mut [i32],
    marks: &mut [u8],
    numbers: &mut [u64],
    used: u64,
    budget: u64,
    answer: &mut [u64; 4],
) -> u64
    ensures value { result ≡
        (by_search (search_on variables list.now trail.old marks.old numbers.old used) budget).outcome.number }
    ensures numbers_after { slices trail.new marks.new numbers.new ≡
        (by_search (search_on variables list.now trail.old marks.old numbers.old used) budget).slices }
    ensures answer_after { answer.new ≡
        words (by_search (search_on variables list.now trail.old marks.old numbers.old used) budget).outcome }
{
    let v = variables as usize;
    let found = search_call::search(v, list, trail, marks, numbers, used as usize, budget);
    Outcome::from(found).write(answer)
}

// The search from a full trail on to the following solution: drops that assignment first. Answered: as by the search.
#[unsafe(no_mangle)]
pub extern "C" fn yajilin_next(
    variables: u64,
    list: &[i32],
    trail: &mut [i32],
    marks: &mut [u8],
    numbers: &mut [u64],
    used: u64,
    budget: u64,
    answer: &mut [u64; 4],
) -> u64
    ensures value { result ≡
        (by_next (search_on variables list.now trail.old marks.old numbers.old used) budget).outcome.number }
    ensures numbers_after { slices trail.new marks.new numbers.new ≡
        (by_next (search_on variables list.now trail.old marks.old numbers.old used) budget).slices }
    ensures answer_after { answer.new ≡
        words (by_next (search_on variables list.now trail.old marks.old numbers.old used) budget).outcome }
{
    let v = variables as usize;
    let found = search_next::next(v, list, trail, marks, numbers, used as usize, budget);
    Outcome::from(found).write(answer)
}

// For a shaded cell and a direction: counter n becomes how many of the solutions found have n black cells on that line. Answered: 2 none (all
// solutions are found) or 3 halted; the steps in all.
#[unsafe(no_mangle)]
pub extern "C" fn yajilin_tally(
    record: &[u8],
    cell: u64,
    direction: u64,
    counters: &mut [u64],
    list: &mut [i32],
    trail: &mut [i32],
    marks: &mut [u8],
    numbers: &mut [u64],
    budget: u64,
    answer: &mut [u64; 4],
) -> u64
    ensures value { result ≡ (tally_answer «record».now (asked cell direction) budget
        (lent_of counters.old list.old trail.old marks.old numbers.old)).number }
    ensures numbers_after { lent_of counters.new list.new trail.new marks.new numbers.new
        ≡ tally_leaves «record».now (asked cell direction) budget
        (lent_of counters.old list.old trail.old marks.old numbers.old) }
    ensures answer_after { answer.new ≡ words (tally_answer «record».now (asked cell direction) budget
        (lent_of counters.old list.old trail.old marks.old numbers.old)) }
{
    let x = cell as usize;
    let d = direction as usize;
    let tallied = solver_tally::tally(record, x, d, counters, list, trail, marks, numbers, budget);
    Outcome::from(tallied).write(answer)
}
