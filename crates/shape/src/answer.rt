// What the calls answer, here and in the crates above, beside the bytes that they write: a value, or the first question that fails.
ghost use Rattle.std.specs.Prelude.{◌≡◌};
ghost use Rattle.shape.specs.Refusals.{number_of, unless_holds};

// A question's no. Its number is that of the question in documents 01 and 02.
#[derive(Clone, Copy, Debug, PartialEq, Eq)]
pub enum Refusal {
    Radix = 1,
    Digits = 2,
    Errors = 3,
    Width = 4,
    Rows = 5,
    Length = 6,
    Place = 7,
    Level = 8,
    Record = 9,
    JobSize = 10,
    JobVersion = 11,
    JobLength = 12,
    JobCells = 13,
    JobFields = 14,
    Skip = 15,
    Line = 16,
    Finished = 17,
    Features = 18,
    Range = 19,
}

// What a call answers.
pub type Answer<T> = Result<T, Refusal>;

impl Refusal {
    // A question: this is the answer unless it holds.
    pub fn unless(self, holds: bool) -> Answer<()>
        ensures { result ≡ unless_holds self holds }
    {
        if holds { Ok(()) } else { Err(self) }
    }

    // As documents 01 and 02 number it.
    pub fn number(self) -> u8
        ensures { result ≡ number_of self }
    {
        self as u8
    }
}
