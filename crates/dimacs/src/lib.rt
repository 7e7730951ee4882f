// "DIMACS text" of document 01.
#![tactic(auto)]

ghost use Rattle.std.specs.Prelude.{◌≡◌};
ghost use Rattle.dimacs.specs.Answers.{write_refusal_outcome, read_refusal_outcome, list_read_outcome};

use answers::{Outcome, answered, refused};

// `p cnf `, the first bytes of a header.
pub const PREAMBLE: [u8; 6] = *b"p cnf ";

// Why the writer turns a list down: 17 (for V alone), 16 and 6 of document 01's table.
#[derive(Clone, Copy, Debug, PartialEq, Eq)]
pub enum WriteRefusal {
    Variables,
    List(usize),
    Room(usize),
}

// Document 01's number, and the value beside it.
impl From<WriteRefusal> for Outcome {
    ghost from_gives = { λ r t. t ≡ write_refusal_outcome r };

    fn from(refusal: WriteRefusal) -> Outcome {
        match refusal {
            WriteRefusal::Variables => refused(17, 0),
            WriteRefusal::List(i) => refused(16, i as u64),
            WriteRefusal::Room(needed) => refused(6, needed as u64),
        }
    }
}

// Why the reader turns a text down: 19 and 6 of document 01's table.
#[derive(Clone, Copy, Debug, PartialEq, Eq)]
pub enum ReadRefusal {
    Text(usize),
    Room(usize),
}

// Document 01's number, and the value beside it.
impl From<ReadRefusal> for Outcome {
    ghost from_gives = { λ r t. t ≡ read_refusal_outcome r };

    fn from(refusal: ReadRefusal) -> Outcome {
        match refusal {
            ReadRefusal::Text(at) => refused(19, at as u64),
            ReadRefusal::Room(needed) => refused(6, needed as u64),
        }
    }
}

// What was read: the list's elements, V and the number of its clauses.
#[derive(Clone, Copy, Debug, PartialEq, Eq)]
pub struct ListRead {
    pub elements: usize,
    pub variables: usize,
    pub clauses: usize,
}

// Document 01's values.
impl From<ListRead> for Outcome {
    ghost from_gives = { λ r t. t ≡ list_read_outcome r };

    fn from(read: ListRead) -> Outcome {
        answered(
            read.elements as u64,
            read.variables as u64,
            read.clauses as u64,
        )
    }
}
