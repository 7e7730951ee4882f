// How a call answers: what it tells in document 01's numbers, and the writer into a lent buffer.
#![tactic(auto)]

ghost use Rattle.std.specs.Prelude.{◌≡◌, ◌+◌, ◌<◌, ◌^◌, [], ◌∷◌, length, MatchResult};
ghost use Rattle.answers.specs.Writer.{Puts};
ghost use Rattle.answers.specs.Outcome.{refusal, answer, words};

use std::mem::replace;

// What a call tells. Refused: document 01's number and the value beside it. Answered: 0 and the call's values.
#[derive(Clone, Copy, Debug, PartialEq, Eq)]
pub struct Outcome {
    pub number: u64,
    pub first: u64,
    pub second: u64,
    pub third: u64,
}

pub fn refused(number: u64, beside: u64) -> Outcome
    ensures { result ≡ refusal number beside }
{
    Outcome {
        number,
        first: beside,
        second: 0,
        third: 0,
    }
}

pub fn answered(first: u64, second: u64, third: u64) -> Outcome
    ensures { result ≡ answer first second third }
{
    Outcome {
        number: 0,
        first,
        second,
        third,
    }
}

// A call that answers with no value.
impl From<()> for Outcome {
    ghost from_gives = { λ _ t. t ≡ answer 0 0 0 };

    fn from(_nothing: ()) -> Outcome {
        answered(0, 0, 0)
    }
}

// A call that answers with one number.
impl From<u64> for Outcome {
    ghost from_gives = { λ n t. t ≡ answer n 0 0 };

    fn from(value: u64) -> Outcome {
        answered(value, 0, 0)
    }
}

impl From<usize> for Outcome {
    ghost from_gives = { λ n t. t ≡ answer n 0 0 };

    fn from(value: usize) -> Outcome {
        answered(value as u64, 0, 0)
    }
}

// What a call's result tells: its values, or why it is refused.
impl<T: Into<Outcome>, E: Into<Outcome>> From<Result<T, E>> for Outcome {
    ghost from_gives = { λ r t. MatchResult r (λ x. T.converts x t) (λ e. E.converts e t) };

    fn from(result_of_call: Result<T, E>) -> Outcome {
        match result_of_call {
            Ok(values) => values.into(),
            Err(refusal) => refusal.into(),
        }
    }
}

impl Outcome {
    // Writes the values into four words, the last of them 0, and returns the number.
    pub fn write(self, out: &mut [u64; 4]) -> u64
        ensures value { result ≡ self.number }
        ensures out_after { out.new ≡ words self }
    {
        *out = [self.first, self.second, self.third, 0];
        self.number
    }
}

// A lent buffer, and the place in it where the next element goes. What is put beyond the buffer's end is left out and counted all the same.
#[derive(Drop)]
pub struct Writer<'a, T> {
    buffer: &'a mut [T],
    place: usize,
}

impl<'a, T: Copy> Writer<'a, T> {
    pub fn new(buffer: &'a mut [T]) -> Self
        ensures { result ≡ record { buffer = buffer.entry; place = 0 } }
    {
        Writer { buffer, place: 0 }
    }

    // A writer that goes on at a place, which may be beyond the buffer's end.
    pub fn at(buffer: &'a mut [T], place: usize) -> Self
        ensures { result ≡ record { buffer = buffer.entry; place = place } }
    {
        Writer { buffer, place }
    }

    // Takes the writer out, to be put back: a loop holds its place in a variable of its own, which a store into the buffer can't change.
    pub fn take(&mut self) -> Self
        ensures taken { result ≡ self.old }
        ensures left { (self.new.place ≡ 0) × (self.new.buffer.now ≡ []) }
    {
        replace(self, Writer::new(&mut []))
    }

    // Where the next element goes: after all that were put.
    pub fn place(&self) -> usize
        ensures { result ≡ self.now.place }
    {
        self.place
    }

    pub fn put(&mut self, x: T)
        requires { self.old.place + 1 < 2 ^ 64 }
        ensures { Puts self.old (x ∷ []) self.new }
    {
        if self.place < self.buffer.len() {
            self.buffer[self.place] = x;
        }
        self.place += 1;
    }

    // A slice that fits is put without a test for each element.
    #[tactic(auto, using(crate::proofs::Putting::putting))]
    pub fn put_slice(&mut self, xs: &[T])
        requires { self.old.place + length xs.now < 2 ^ 64 }
        ensures { Puts self.old xs.now self.new }
    {
        let at = self.place;
        if at + xs.len() <= self.buffer.len() {
            for i in 0..xs.len() {
                self.buffer[at + i] = xs[i];
            }
            self.place += xs.len();
            return;
        }
        for x in xs {
            self.put(*x);
        }
    }
}
