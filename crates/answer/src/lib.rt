// Answers: the refusal table with each number and place, the limits that it names, and the figures of a form.
#![tactic(auto)]

ghost use Rattle.std.specs.Prelude.{◌≡◌};
ghost use Rattle.answer.specs.Refusal.{number, place};

pub const STRING_LIMIT: usize = 4096;

pub const FORM_LIMIT: usize = 12301;

pub const EXPONENT_LIMIT: u32 = 40;

pub const COEFFICIENT_LIMIT: i64 = 1048576;

pub const FRAME_LENGTH: usize = 138;

pub const CHECK_WORD_PLACE: usize = 130;

// A call that cannot answer gives one of these in its `Err`.
#[derive(Clone, Copy, Debug, PartialEq, Eq)]
pub enum Refusal {
    BadLetter { place: usize },
    TooLong { limit: usize },
    NoRoom { needed: usize },
    HighExponent,
    WideCoefficient { index: usize },
    NotUnitary,
    NotForm { prefix: usize },
    HighLeastExponent,
    BadFrame { place: usize },
    BadCheckWord,
}

// What an answer with a form carries.
#[derive(Clone, Copy)]
pub struct Figures {
    pub length: usize,
    pub tcount: usize,
    pub hcount: usize,
}

impl Refusal {
    // The number of the refusal in the table, which the promises name: a `From` would name neither the table nor its column.
    pub fn number(self) -> u32
        ensures { result ≡ number self }
    {
        match self {
            Refusal::BadLetter { place: _ } => 1,
            Refusal::TooLong { limit: _ } => 2,
            Refusal::NoRoom { needed: _ } => 3,
            Refusal::HighExponent => 4,
            Refusal::WideCoefficient { index: _ } => 5,
            Refusal::NotUnitary => 6,
            Refusal::NotForm { prefix: _ } => 7,
            Refusal::HighLeastExponent => 8,
            Refusal::BadFrame { place: _ } => 9,
            Refusal::BadCheckWord => 10,
        }
    }

    // The place that the table returns with it.
    pub fn place(self) -> usize
        ensures { result ≡ place self }
    {
        match self {
            Refusal::BadLetter { place } => place,
            Refusal::TooLong { limit } => limit,
            Refusal::NoRoom { needed } => needed,
            Refusal::HighExponent => 0,
            Refusal::WideCoefficient { index } => index,
            Refusal::NotUnitary => 0,
            Refusal::NotForm { prefix } => prefix,
            Refusal::HighLeastExponent => 0,
            Refusal::BadFrame { place } => place,
            Refusal::BadCheckWord => CHECK_WORD_PLACE,
        }
    }
}
