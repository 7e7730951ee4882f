// Has a grid exactly one solution? Reads a record on standard input and prints `none`, `one` or `several` for its grid's solutions, `halted`
// if the budget does not settle it, or one line such as `refused 3`.
#![tactic(auto)]

ghost use Rattle.program_text.specs.Counts.{IsPrefixLen};
ghost use Rattle.answers.specs.Lent.{Wrote};
ghost use Rattle.solver_count.specs.Answer.{meant};
ghost use Rattle.count_solutions.specs.Printed.{count_line, printed_count};

use answers::Outcome;
use encoder_call::encode;
use program_io::read_full;
use program_text::{BUDGET, ELEMENT_LIMIT, VARIABLE_LIMIT, put_line, put_refused};
use solver_count::{SolutionCount, count_solutions};
use std::io;
use std::io::Write;

// The line of an answer.
fn put_count(text: &mut [u8], many: SolutionCount) -> usize
    ensures { Wrote text.old 0 (count_line (meant many)) text.new result }
{
    match many {
        SolutionCount::NoSolution => put_line(text, b"none\n"),
        SolutionCount::OneSolution => put_line(text, b"one\n"),
        SolutionCount::SeveralSolutions => put_line(text, b"several\n"),
        SolutionCount::Unknown => put_line(text, b"halted\n"),
    }
}

// Writes what the program prints for the bytes on its standard input, which `text` has room for; returns how many bytes that is.
fn count_text(record: &[u8], text: &mut [u8; 4096]) -> usize
    ensures wrote { Wrote text.old 0 (printed_count «record».now) text.new result }
    ensures prefix_len { IsPrefixLen result text.new }
{
    let mut list = [0i32; ELEMENT_LIMIT];
    let counts = match encode(record, &mut list) {
        Ok(counts) => counts,
        Err(refusal) => return put_refused(text, Outcome::from(refusal).number as usize),
    };
    let v = counts.variables;
    if v > VARIABLE_LIMIT {
        return put_refused(text, 6);
    }
    let mut trail = [0i32; VARIABLE_LIMIT];
    let mut marks = [0u8; VARIABLE_LIMIT];
    let mut numbers = [0u64; VARIABLE_LIMIT];
    let many = count_solutions(
        &list[..counts.elements],
        &mut trail[..v],
        &mut marks[..v],
        &mut numbers[..v],
        BUDGET,
    );
    put_count(text, many)
}

// No record has more than 65,535 bytes, so 65,536 of a longer input are enough to refuse it.
fn main(rt: HostRuntime) -> io::Result<()> {
    let mut record = [0u8; 65536];
    let read = read_full(&mut rt.stdin(), &mut record)?;
    let mut text = [0u8; 4096];
    let printed = count_text(&record[..read], &mut text);
    rt.stdout().write_all(&text[..printed])
}
