// Why a call says no (docs/RULES.md, 'When a call says no'): a case for each row of the table of refusals,
// its number, and its condition in words. What judges answers `Result<(), Refusal>`, and hands a refusal
// on by `?`; an answer that C sees carries the number, 0 for none.
#![tactic(auto)]

ghost use Rattle.std.specs.Prelude.{◌≡◌};
ghost use Rattle.refusal.specs.Number.{number_of, refusal_number};

use std::error::Error;
use std::fmt;

#[derive(Clone, Copy, Debug, PartialEq, Eq, Hash)]
pub enum Refusal {
    TooLarge,
    WrongLength,
    TooShort,
    NoSuchCode,
    NotThere,
    Singular,
    ModelWrong,
    PriorOut,
    BytesEnd,
    CheckWrong,
    FieldWrong,
    NotStorable,
    ClassNotHeld,
    StartOver,
    TooFew,
    NotFinite,
    ShutterClosed,
    TooFar,
    NoClass,
}

impl Refusal {
    // The row's number in the table.
    pub fn number(self) -> u32
        ensures { result ≡ number_of self }
    {
        match self {
            Refusal::TooLarge => 1,
            Refusal::WrongLength => 2,
            Refusal::TooShort => 3,
            Refusal::NoSuchCode => 4,
            Refusal::NotThere => 5,
            Refusal::Singular => 6,
            Refusal::ModelWrong => 7,
            Refusal::PriorOut => 8,
            Refusal::BytesEnd => 9,
            Refusal::CheckWrong => 10,
            Refusal::FieldWrong => 11,
            Refusal::NotStorable => 12,
            Refusal::ClassNotHeld => 13,
            Refusal::StartOver => 14,
            Refusal::TooFew => 15,
            Refusal::NotFinite => 16,
            Refusal::ShutterClosed => 17,
            Refusal::TooFar => 18,
            Refusal::NoClass => 19,
        }
    }
}

impl fmt::Display for Refusal {
    fn fmt<W: fmt::Write>(&self, f: &mut fmt::Formatter<W>) -> fmt::Result {
        f.write_str(match self {
            Refusal::TooLarge => "the picture is too large, or the samples are too many",
            Refusal::WrongLength => "a picture or a list hasn't as many values as it must have",
            Refusal::TooShort => "there is too little room for the answer",
            Refusal::NoSuchCode => "there is no such type, class, form or switch",
            Refusal::NotThere =>
                "there is no such reference or band, or the model has no such number",
            Refusal::Singular => "the samples lie on a line, or are too few for this type",
            Refusal::ModelWrong => "the model has a number that no header can carry",
            Refusal::PriorOut =>
                "the model of the frame before has a number that no header can carry",
            Refusal::BytesEnd => "the data is cut short: it ends ahead of what it should hold",
            Refusal::CheckWrong => "the block is damaged: its check doesn't go with its bytes",
            Refusal::FieldWrong =>
                "the block says what can't be, or isn't the one that should stand here",
            Refusal::NotStorable =>
                "the samples aren't in their order, or one says what no block can hold",
            Refusal::ClassNotHeld => "film can't be stored in the older form of blocks",
            Refusal::StartOver => "a header begins at one of the eight bits of its first byte",
            Refusal::TooFew => "there are too few samples to leave any of them out",
            Refusal::NotFinite => "a sample lies so far off that no number can say how far",
            Refusal::ShutterClosed =>
                "the frame was taken with the shutter closed: there is nothing to see",
            Refusal::TooFar => "a practice belt moves by at most 24 pels either way",
            Refusal::NoClass => "no class is named, so that no sample counts",
        })
    }
}

impl Error for Refusal {}

// The number of what was judged, 0 where nothing is refused.
pub fn refusal_number(judged: Result<(), Refusal>) -> u32
    ensures { result ≡ refusal_number judged }
{
    match judged {
        Ok(()) => 0,
        Err(refusal) => refusal.number(),
    }
}
