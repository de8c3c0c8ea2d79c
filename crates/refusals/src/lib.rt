// The refusals: what a call says of what it was handed. Each has a number, which is what C, a file's listing and the documents name it by.
#![tactic(auto)]

ghost use Rattle.std.specs.Prelude.{◌≡◌};
ghost use Rattle.refusals.specs.Numbers.{number_of, Numbered};

// In the order of the table; `specs/Numbers.antt` has the words of each.
#[derive(Clone, Copy, Debug, PartialEq, Eq)]
pub enum Refusal {
    NodeCount = 1,
    Starts = 2,
    Rows = 3,
    Partners = 4,
    ShortBuffer = 5,
    NoSuchNode = 6,
    NoNumbering = 7,
    ShortMarks = 8,
    Kind = 9,
    ElementNode = 10,
    TooManyEntries = 11,
    File = 12,
    Pairs = 13,
    Figures = 14,
    Counts = 15,
}

impl From<Refusal> for u16 {
    ghost from_gives = { λ refusal number. number ≡ number_of refusal };

    fn from(refusal: Refusal) -> u16 {
        refusal as u16
    }
}

// A number that no refusal has.
#[derive(Clone, Copy, Debug, PartialEq, Eq)]
pub struct NoRefusal;

impl TryFrom<u16> for Refusal {
    type Error = NoRefusal;

    ghost try_from_gives = { Numbered };

    fn try_from(number: u16) -> Result<Refusal, NoRefusal> {
        match number {
            1 => Ok(Refusal::NodeCount),
            2 => Ok(Refusal::Starts),
            3 => Ok(Refusal::Rows),
            4 => Ok(Refusal::Partners),
            5 => Ok(Refusal::ShortBuffer),
            6 => Ok(Refusal::NoSuchNode),
            7 => Ok(Refusal::NoNumbering),
            8 => Ok(Refusal::ShortMarks),
            9 => Ok(Refusal::Kind),
            10 => Ok(Refusal::ElementNode),
            11 => Ok(Refusal::TooManyEntries),
            12 => Ok(Refusal::File),
            13 => Ok(Refusal::Pairs),
            14 => Ok(Refusal::Figures),
            15 => Ok(Refusal::Counts),
            _ => Err(NoRefusal),
        }
    }
}
