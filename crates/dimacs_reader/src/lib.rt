// The reader: the list of a text, token by token.
#![tactic(auto)]

ghost use Rattle.std.specs.Prelude.{◌≡◌, true, [], ◌∷◌, ◌-◌, ◌≤◌, ◌<◌, ◌^◌};
ghost use Rattle.std.proofs.lemmas.List.Edits.{sets};
ghost use Rattle.answers.specs.Lent.{Wrote};
ghost use Rattle.cnf.specs.Literals.{most_variables};
ghost use Rattle.dimacs.specs.Reader.{header_with, literal_of};
ghost use Rattle.dimacs.specs.Tokens.{stands, line_begins, header_at};
ghost use Rattle.dimacs.specs.Calls.{reader_answer, reader_leaves};
ghost use Rattle.dimacs.specs.Answers.{reading_outcome};
ghost use Rattle.dimacs_reader.specs.Lists.{list_at, listed, closed_after};

use answers::Writer;
use cnf::{put, put_not};
use dimacs::{ListRead, ReadRefusal};
use dimacs_cursor::{BadByte, Cursor};

// The clauses that are closed after an element.
fn closed_after(k: usize, number: usize) -> usize
    requires { k < 2 ^ 64 - 1 }
    ensures { result ≡ closed_after k number }
{
    if number == 0 { k + 1 } else { k }
}

fn put_literal(out: &mut [i32], at: usize, negative: bool, x: usize) -> usize
    requires { (x ≤ most_variables) × (at < 2 ^ 64 - 1) }
    ensures { Wrote out.old at (literal_of negative x ∷ []) out.new result }
{
    let mut writer = Writer::at(out, at);
    if negative {
        put_not(&mut writer, x);
    } else {
        put(&mut writer, x);
    }
    writer.place()
}

// The list after the header, piece by piece: the count of its elements. Elements beyond the end of the buffer are counted and left out.
fn read_list(
    text: &[u8],
    from: usize,
    variables: usize,
    clauses: usize,
    out: &mut [i32],
) -> Result<usize, BadByte>
    requires { (variables ≤ most_variables) × (line_begins text.now from ≡ true) }
    ensures value { result ≡ listed text.now (header_with variables clauses) from }
    ensures out_after { out.new ≡ sets out.old 0 (list_at text.now (header_with variables clauses) from) }
{
    let mut here = Cursor { at: from };
    let mut elements = 0;
    let mut closed = 0;
    let mut begun = false;
    // a `while`: a piece has any number of bytes
    while here.at < text.len() {
        if !here.may_be_number(text) {
            here = here.blank_or_comment(text, begun)?;
            continue;
        }
        if closed == clauses {
            return Err(BadByte { at: here.at });
        }
        let element = here.element_and_blank(text, variables)?;
        elements = put_literal(out, elements, element.negative, element.number);
        closed = closed_after(closed, element.number);
        begun = element.number != 0;
        here = element.after;
    }
    if begun || closed != clauses {
        return Err(BadByte { at: here.at });
    }
    Ok(elements)
}

// What comes after the header. The text is read first with an empty buffer: nothing is written before all refusals are settled.
fn read_body(
    text: &[u8],
    from: usize,
    variables: usize,
    clauses: usize,
    list: &mut [i32],
) -> Result<ListRead, ReadRefusal>
    requires { header_at text.now 0 ≡ stands (header_with variables clauses) from }
    ensures result_value { reading_outcome result ≡ reader_answer text.now list.old }
    ensures list_after { list.new ≡ reader_leaves text.now list.old }
{
    let elements = read_list(text, from, variables, clauses, &mut [])?;
    if list.len() < elements {
        return Err(ReadRefusal::Room(elements));
    }
    let _ = read_list(text, from, variables, clauses, list); // the same answer as before
    Ok(ListRead {
        elements,
        variables,
        clauses,
    })
}

// Refusals 19 and 6 in order, before anything is written.
pub fn read(text: &[u8], list: &mut [i32]) -> Result<ListRead, ReadRefusal>
    ensures result_value { reading_outcome result ≡ reader_answer text.now list.old }
    ensures list_after { list.new ≡ reader_leaves text.now list.old }
{
    let start = Cursor { at: 0 };
    let header = start.header(text)?;
    read_body(
        text,
        header.after.at,
        header.variables,
        header.clauses,
        list,
    )
}
