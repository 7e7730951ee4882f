// Program 1: reads a record on standard input and prints its grid's clauses as DIMACS text, or one line such as `refused 3`.
#![tactic(auto)]

ghost use Rattle.program_text.specs.Counts.{IsPrefixLen};
ghost use Rattle.answers.specs.Lent.{Wrote};
ghost use Rattle.program_text.specs.Programs.{printed_clauses};

use answers::Outcome;
use dimacs_writer::write_text;
use encoder_call::encode;
use program_io::read_full;
use program_text::{ELEMENT_LIMIT, VARIABLE_LIMIT, put_refused};
use std::io;
use std::io::Write;

// Writes what the program prints for the bytes on its standard input, which `text` has room for; returns how many bytes that is.
fn clauses_text(record: &[u8], text: &mut [u8; 65536]) -> usize
    ensures wrote { Wrote text.old 0 (printed_clauses «record».now) text.new result }
    ensures prefix_len { IsPrefixLen result text.new }
{
    let mut list = [0i32; ELEMENT_LIMIT];
    let counts = match encode(record, &mut list) {
        Ok(counts) => counts,
        Err(refusal) => return put_refused(text, Outcome::from(refusal).number as usize),
    };
    if counts.variables > VARIABLE_LIMIT {
        return put_refused(text, 6);
    }
    write_text(
        text,
        counts.variables,
        counts.clauses,
        &list[..counts.elements],
    )
}

// No record has more than 65,535 bytes, so 65,536 of a longer input are enough to refuse it.
fn main(rt: HostRuntime) -> io::Result<()> {
    let mut record = [0u8; 65536];
    let read = read_full(&mut rt.stdin(), &mut record)?;
    let mut text = [0u8; 65536];
    let printed = clauses_text(&record[..read], &mut text);
    rt.stdout().write_all(&text[..printed])
}
