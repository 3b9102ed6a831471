// Why a call is refused: the causes of document 01's table and of document 02, by their numbers.
#![tactic(auto)]

ghost use Rattle.std.specs.Prelude.{◌≡◌, cond};
ghost use Rattle.scope.specs.Refusals.{front_to_back};
ghost use Rattle.refusals.specs.Numbers.{number, number_if, checks_of};

use std::error::Error;
use std::fmt;

#[derive(Clone, Copy, Debug, PartialEq, Eq, PartialOrd, Ord, Hash)]
pub enum Refusal {
    TooManyCircles = 1,
    TooManyRegions = 2,
    BadCoordinate = 3,
    BadRadius = 4,
    MasksNotRising = 5,
    BadFactor = 6,
    BadSide = 7,
    BadPadding = 8,
    BadTag = 9,
    WrongLength = 10,
    CutShort = 11,
    NoRoot = 12,
    UnequalLists = 13,
    RepeatedInk = 14,
    OutputTooShort = 15,
    BadProportion = 16,
    BadPrice = 17,
    TooManyPoints = 18,
    TooFewAnswers = 19,
}

impl Refusal {
    // Its number, which is what C and the printed text have.
    pub fn number(self) -> u8
        ensures { result ≡ number self }
    {
        self as u8
    }
}

impl fmt::Display for Refusal {
    fn fmt<W: fmt::Write>(&self, f: &mut fmt::Formatter<W>) -> fmt::Result {
        f.write_str(match self {
            Refusal::TooManyCircles => "more than 64 circles or rectangles",
            Refusal::TooManyRegions => "more than 2,048 regions",
            Refusal::BadCoordinate => "a coordinate that is not finite or out of range",
            Refusal::BadRadius => "a radius that is not finite or out of range",
            Refusal::MasksNotRising => "masks that do not rise",
            Refusal::BadFactor => "a factor that is not finite or out of range",
            Refusal::BadSide => "a side that is not finite or out of range",
            Refusal::BadPadding => "a padding that is not finite or out of range",
            Refusal::BadTag => "a field whose tag is unknown or out of place",
            Refusal::WrongLength => "a field of a wrong length",
            Refusal::CutShort => "a field that is cut short",
            Refusal::NoRoot => "a number that has no root",
            Refusal::UnequalLists => "lists of masks and areas of unequal length",
            Refusal::RepeatedInk => "two circles of one ink",
            Refusal::OutputTooShort => "an output that is too short",
            Refusal::BadProportion => "a proportion that is not finite or out of range",
            Refusal::BadPrice => "a price outside its range",
            Refusal::TooManyPoints => "more than 1,024 points",
            Refusal::TooFewAnswers => "fewer answers than points",
        })
    }
}

impl Error for Refusal {}

// Refuses where a cause holds.
pub fn refuse_if(holds: bool, cause: Refusal) -> Result<(), Refusal>
    ensures { number_if result ≡ cond holds (number cause) 0 }
{
    if holds { Err(cause) } else { Ok(()) }
}

// Refuses for the first cause that holds.
pub fn refuse_first(causes: &[(bool, Refusal)]) -> Result<(), Refusal>
    ensures { number_if result ≡ front_to_back (checks_of causes.now) }
{
    for (holds, cause) in causes {
        if *holds {
            return Err(*cause);
        }
    }
    Ok(())
}
