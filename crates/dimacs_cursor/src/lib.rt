// The next token of a text at a place: comment lines, the word of the header, numbers, elements, blanks.
#![tactic(auto)]

ghost use Rattle.std.specs.Prelude.{◌≡◌, ◌<◌, length, get_or, drop};
ghost use Rattle.dimacs.specs.declared.ReadRefusal.TheVariants.{Text};
ghost use Rattle.dimacs.specs.Text.{preamble};
ghost use Rattle.dimacs.specs.Accepted.{is_blank};
ghost use Rattle.dimacs.specs.Reader.{is_digit, is_first, is_next, starts_comment};
ghost use Rattle.dimacs.specs.Tokens.{has_byte, followed_by, digits_from, number_at, comments_at, word_at, field_at, header_counts_at, header_at};
ghost use Rattle.dimacs.specs.Tokens.{unsigned_at, element_at, element_and_blank_at, may_begin_number, line_begins, line_end_at, blank_or_comment_at};
ghost use Rattle.dimacs_cursor.specs.Cursors.{at_passed, at_token, at_head, at_element};

use dimacs::{PREAMBLE, ReadRefusal};

// V at most.
const MOST_VARIABLES: usize = 16_777_216;

// A place in a text.
#[derive(Clone, Copy, Debug, PartialEq, Eq)]
pub struct Cursor {
    pub at: usize,
}

// The place of the byte at which a text is refused: its length, if it ends too soon.
#[derive(Clone, Copy, Debug, PartialEq, Eq)]
pub struct BadByte {
    pub at: usize,
}

impl From<BadByte> for ReadRefusal {
    ghost from_gives = { λ bad r. r ≡ Text bad.at };

    fn from(bad: BadByte) -> ReadRefusal {
        ReadRefusal::Text(bad.at)
    }
}

// A number, and the place after it.
#[derive(Clone, Copy, Debug, PartialEq, Eq)]
pub struct Number {
    pub value: usize,
    pub after: Cursor,
}

// V and C of the header, and the place after it.
#[derive(Clone, Copy, Debug, PartialEq, Eq)]
pub struct Header {
    pub variables: usize,
    pub clauses: usize,
    pub after: Cursor,
}

// An element: whether a minus is before it, its number and the place after it.
#[derive(Clone, Copy, Debug, PartialEq, Eq)]
pub struct Element {
    pub negative: bool,
    pub number: usize,
    pub after: Cursor,
}

fn has_byte(text: &[u8], b: u8, at: usize) -> bool
    ensures { result ≡ has_byte text.now b at }
{
    at < text.len() && text[at] == b
}

fn is_digit(b: u8) -> bool
    ensures { result ≡ is_digit b }
{
    matches!(b, b'0'..=b'9')
}

// A byte as the first digit of a number.
fn starts(b: u8, bound: usize, zero: bool) -> bool
    ensures { result ≡ is_first b bound zero }
{
    is_digit(b) && (zero || b != b'0') && usize::from(b - b'0') <= bound
}

// A digit after a number. The number that it would make is not computed, since it may be too large.
fn goes_on(x: usize, d: usize, bound: usize) -> bool
    requires { d < 10 }
    ensures { result ≡ is_next x d bound }
{
    if x == 0 {
        return false;
    }
    if x < bound / 10 {
        return true; // whatever the digit
    }
    if x > bound / 10 {
        return false;
    }
    d <= bound - x * 10
}

fn is_blank(b: u8) -> bool
    ensures { result ≡ is_blank b }
{
    matches!(b, b' ' | b'\t' | b'\n')
}

// A byte from `-` to `9`: no other begins a number. One range, since this is asked at each number.
fn may_begin_number(b: u8) -> bool
    ensures { result ≡ may_begin_number b }
{
    matches!(b, b'-'..=b'9')
}

// A line begins there: at the text's start, or after an LF.
fn line_begins(text: &[u8], at: usize) -> bool
    ensures { result ≡ line_begins text.now at }
{
    at == 0 || has_byte(text, b'\n', at - 1)
}

// The `c` of a comment line: a line's first byte, and no clause is begun.
fn starts_comment(begun: bool, at_line: bool, b: u8) -> bool
    ensures { result ≡ starts_comment begun at_line b }
{
    b == b'c' && at_line && !begun
}

// The loops go by place: `iter().skip(..)` would walk the text from its start at each number.
impl Cursor {
    // Past the comment lines.
    fn after_comments(self, text: &[u8]) -> Result<Cursor, BadByte>
        ensures { at_passed result ≡ comments_at text.now self.at }
    {
        let end = text.len().max(self.at);
        let mut inside = false;
        for at in self.at..end {
            if !inside && text[at] != b'c' {
                return Ok(Cursor { at });
            }
            inside = text[at] != b'\n';
        }
        Err(BadByte { at: end })
    }

    // Past this byte.
    fn past(self, text: &[u8], byte: u8) -> Result<Cursor, BadByte>
        ensures { at_passed result ≡ followed_by text.now byte tt self.at }
    {
        let at = self.at;
        if !has_byte(text, byte, at) {
            return Err(BadByte { at });
        }
        Ok(Cursor { at: at + 1 })
    }

    // Past `p cnf `.
    fn word(self, text: &[u8]) -> Result<Cursor, BadByte>
        ensures { at_passed result ≡ word_at text.now preamble self.at }
    {
        let mut here = self;
        for byte in PREAMBLE {
            here = here.past(text, byte)?;
        }
        Ok(here)
    }

    // The digits after the first.
    fn more_digits(self, text: &[u8], bound: usize, start: usize) -> Result<Number, BadByte>
        ensures { at_token result ≡ digits_from bound start (drop self.at text.now) self.at }
    {
        let end = text.len().max(self.at);
        let mut value = start;
        for at in self.at..end {
            let b = text[at];
            if !is_digit(b) {
                let after = Cursor { at };
                return Ok(Number { value, after });
            }
            let digit = usize::from(b - b'0');
            if !goes_on(value, digit, bound) {
                return Err(BadByte { at });
            }
            value = value * 10 + digit;
        }
        let after = Cursor { at: end };
        Ok(Number { value, after }) // the text's end ends it too
    }

    // A number to a bound, 0 among them or not.
    fn number(self, text: &[u8], bound: usize, zero: bool) -> Result<Number, BadByte>
        ensures { at_token result ≡ number_at text.now bound zero self.at }
    {
        let at = self.at;
        if at >= text.len() || !starts(text[at], bound, zero) {
            return Err(BadByte { at });
        }
        let next = Cursor { at: at + 1 };
        next.more_digits(text, bound, usize::from(text[at] - b'0'))
    }

    // A number of the header, and the byte behind it.
    fn field(self, text: &[u8], bound: usize, end: u8) -> Result<Number, BadByte>
        ensures { at_token result ≡ field_at text.now bound end self.at }
    {
        let number = self.number(text, bound, true)?;
        let after = number.after.past(text, end)?;
        Ok(Number { after, ..number })
    }

    // V and C.
    fn counts(self, text: &[u8]) -> Result<Header, BadByte>
        ensures { at_head result ≡ header_counts_at text.now self.at }
    {
        let variables = self.field(text, MOST_VARIABLES, b' ')?;
        let clauses = variables.after.field(text, usize::MAX, b'\n')?;
        Ok(Header {
            variables: variables.value,
            clauses: clauses.value,
            after: clauses.after,
        })
    }

    // The header, after the comment lines.
    pub fn header(self, text: &[u8]) -> Result<Header, BadByte>
        ensures { at_head result ≡ header_at text.now self.at }
    {
        self.after_comments(text)?.word(text)?.counts(text)
    }

    // An element after its sign.
    fn unsigned(self, text: &[u8], variables: usize, negative: bool) -> Result<Element, BadByte>
        ensures { at_element result ≡ unsigned_at text.now variables negative self.at }
    {
        let number = self.number(text, variables, !negative)?;
        Ok(Element {
            negative,
            number: number.value,
            after: number.after,
        })
    }

    // An element with its sign.
    fn element(self, text: &[u8], variables: usize) -> Result<Element, BadByte>
        ensures { at_element result ≡ element_at text.now variables self.at }
    {
        let at = self.at;
        if !has_byte(text, b'-', at) {
            return self.unsigned(text, variables, false);
        }
        if variables == 0 {
            return Err(BadByte { at });
        }
        let next = Cursor { at: at + 1 };
        next.unsigned(text, variables, true)
    }

    // An element, and the blank behind it or the text's end.
    pub fn element_and_blank(self, text: &[u8], variables: usize) -> Result<Element, BadByte>
        ensures { at_element result ≡ element_and_blank_at text.now variables self.at }
    {
        let element = self.element(text, variables)?;
        let at = element.after.at;
        if at >= text.len() {
            return Ok(element); // the last number needs nothing after it
        }
        if !is_blank(text[at]) {
            return Err(BadByte { at }); // the next number stands apart
        }
        let after = Cursor { at: at + 1 };
        Ok(Element { after, ..element })
    }

    // Whether a number may begin here.
    pub fn may_be_number(self, text: &[u8]) -> bool
        requires { self.at < length text.now }
        ensures { result ≡ may_begin_number (get_or text.now self.at 0) }
    {
        may_begin_number(text[self.at])
    }

    // Past the LF that ends a line.
    fn line_end(self, text: &[u8]) -> Result<Cursor, BadByte>
        ensures { at_passed result ≡ line_end_at text.now self.at }
    {
        let end = text.len().max(self.at);
        for at in self.at..end {
            if text[at] == b'\n' {
                return Ok(Cursor { at: at + 1 });
            }
        }
        Err(BadByte { at: end }) // a last line needs its LF too
    }

    // Past a blank or a comment line.
    pub fn blank_or_comment(self, text: &[u8], begun: bool) -> Result<Cursor, BadByte>
        requires { self.at < length text.now }
        ensures { at_passed result ≡ blank_or_comment_at text.now begun self.at }
    {
        let at = self.at;
        let b = text[at];
        let next = Cursor { at: at + 1 };
        if is_blank(b) {
            return Ok(next);
        }
        let at_line = line_begins(text, at);
        if !starts_comment(begun, at_line, b) {
            return Err(BadByte { at }); // the byte itself
        }
        next.line_end(text)
    }
}
