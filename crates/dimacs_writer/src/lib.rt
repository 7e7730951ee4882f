// The writer: the text of V and a list.
#![tactic(auto)]

ghost use Rattle.std.specs.Prelude.{◌≡◌, ◌++◌, ◌+◌, ◌<◌, ◌^◌, length, get_or, pos};
ghost use Rattle.answers.specs.Lent.{Wrote};
ghost use Rattle.answers.specs.Writer.{Puts};
ghost use Rattle.dimacs.specs.Text.{lines, header_line};
ghost use Rattle.dimacs_writer.specs.Writer.{written, counted};
ghost use Rattle.dimacs.specs.Calls.{writer_answer, writer_leaves};
ghost use Rattle.dimacs.specs.Answers.{written_outcome};

use answers::Writer;
use dimacs::{PREAMBLE, WriteRefusal};
use text::{put_field, width};

// The bytes of the lines, after so many others; none if a usize does not hold them.
fn count_lines(list: &[i32], before: usize) -> Option<usize>
    ensures { result ≡ counted (before + length (lines list.now)) }
{
    let mut n = before;
    for i in 0..list.len() {
        let k = cnf::code_at(list, i);
        n = n.checked_add(width(k / 2) + k % 2 + 1)?;
    }
    Some(n)
}

// An element and the byte behind it: LF after a closing 0, a space after a literal.
fn put_element(out: &mut Writer<u8>, list: &[i32], i: usize)
    requires i_in_bounds { i < length list.now }
    requires place_bound { out.old.place + length (written (get_or list.now i (pos 0))) < 2 ^ 64 }
    ensures { Puts out.old (written (get_or list.now i (pos 0))) out.new }
{
    let k = cnf::code_at(list, i);
    if k % 2 == 1 {
        out.put(b'-');
    }
    put_field(out, k / 2, if k == 0 { b'\n' } else { b' ' });
}

#[tactic(auto, using(answers::proofs::Putting::putting), unfolding(dimacs::specs::Text::lines))]
pub fn put_lines(out: &mut Writer<u8>, list: &[i32])
    requires { out.old.place + length (lines list.now) < 2 ^ 64 }
    ensures { Puts out.old (lines list.now) out.new }
{
    for i in 0..list.len() {
        put_element(out, list, i);
    }
}

#[tactic(auto, using(text::proofs::Decimals::digits))]
pub fn put_header(out: &mut Writer<u8>, variables: usize, clauses: usize)
    requires { out.old.place + length (header_line variables clauses) < 2 ^ 64 }
    ensures { Puts out.old (header_line variables clauses) out.new }
{
    out.put_slice(&PREAMBLE);
    put_field(out, variables, b' ');
    put_field(out, clauses, b'\n');
}

// The header, then one clause a line.
#[tactic(auto, using(answers::proofs::Putting::putting))]
pub fn write_text(text: &mut [u8], variables: usize, clauses: usize, list: &[i32]) -> usize
    requires { length (header_line variables clauses) + length (lines list.now) < 2 ^ 64 }
    ensures { Wrote text.old 0 (header_line variables clauses ++ lines list.now) text.new result }
{
    let mut out = Writer::new(text);
    put_header(&mut out, variables, clauses);
    put_lines(&mut out, list);
    out.place()
}

// Refusals 17, 16 and 6 in order, before anything is written.
pub fn write(variables: usize, list: &[i32], text: &mut [u8]) -> Result<usize, WriteRefusal>
    ensures result_value { written_outcome result ≡ writer_answer variables list.now text.old }
    ensures text_after { text.new ≡ writer_leaves variables list.now text.old }
{
    if cnf::too_many_variables(variables) {
        return Err(WriteRefusal::Variables);
    }
    if let Some(i) = cnf::wrong_list(list, variables) {
        return Err(WriteRefusal::List(i));
    }
    let clauses = cnf::clause_count(list);
    let header = 8 + width(variables) + width(clauses);
    let Some(needed) = count_lines(list, header) else {
        return Err(WriteRefusal::Room(usize::MAX));
    };
    if text.len() < needed {
        return Err(WriteRefusal::Room(needed));
    }
    Ok(write_text(text, variables, clauses, list))
}
