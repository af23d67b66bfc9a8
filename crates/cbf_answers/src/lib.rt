// SPDX-License-Identifier: Apache-2.0
// What every call speaks of: refusals and document 01's limits. A call answers with a length, or with a refusal, which
// wrote nothing: `Result<usize, Refusal>`. No function here has a `requires`.
#![tactic(auto)]

ghost use Rattle.std.specs.Prelude.{◌≡◌};
ghost use Rattle.cbf_answers.specs.Answers.{number_of};

// "File and result file: at most 1,073,741,824 bytes."
pub const FILE_LIMIT: usize = 1073741824;

// "Pixels in a section: at most 67,108,864."
pub const PIXEL_LIMIT: usize = 67108864;

// "Text line: at most 80 characters, line end not counted." The calls for users take this limit; what reads takes it
// as a parameter.
pub const LINE_LIMIT: usize = 80;

// A number of document 01's table of refusals, and the place that goes with it.
#[derive(Clone, Copy, Debug, PartialEq, Eq)]
pub struct Refusal {
    pub number: u32,
    pub place: usize,
}

impl Refusal {
    // The refusal with a number, at a place. A number that is in no table has its line too (cbf_listing), so any may be
    // given; where the rule is known, `Reason` has its name.
    pub fn new(number: u32, place: usize) -> Refusal
        ensures { result ≡ record { number = number; place = place } }
    {
        Refusal { number, place }
    }
}

// Document 01's table of refusals.
#[derive(Clone, Copy, Debug, PartialEq, Eq)]
pub enum Reason {
    // "No CBF identifier in the first line": 1
    NoIdentifier,
    // "Text line of more than 80 characters": 2
    LongLine,
    // "Byte that is neither printable text nor a tab": 3
    NotText,
    // "File too long, or more than 512 sections": 4
    TooLarge,
    // "Header line malformed": 5
    MalformedHeader,
    // "Header repeated, with a bad value, or missing": 6
    BadHeader,
    // "Size, elements and dimensions disagree": 7
    CountsDisagree,
    // "Start marker of the octets missing": 8
    NoMarker,
    // "Data cut short or closing wrong": 9
    BadClosing,
    // "BASE64 text wrong": 10
    BadBase64,
    // "File ends inside a field": 11
    OpenField,
    // "No section has this number": 12
    NoSection,
    // "Octets do not unpack": 13
    BadOctets,
    // "Wrong number of pixels, or a pixel outside its type": 14
    BadPixels,
    // "Too little room, or result file too long": 15
    NoRoom,
    // "Data block name of more than 32 characters": 17
    LongName,
    // "Section is BASE64, not BINARY": 18
    NotBinary,
}

impl From<Reason> for u32 {
    ghost from_gives = { λ reason number. number ≡ number_of reason };

    fn from(reason: Reason) -> u32 {
        match reason {
            Reason::NoIdentifier => 1,
            Reason::LongLine => 2,
            Reason::NotText => 3,
            Reason::TooLarge => 4,
            Reason::MalformedHeader => 5,
            Reason::BadHeader => 6,
            Reason::CountsDisagree => 7,
            Reason::NoMarker => 8,
            Reason::BadClosing => 9,
            Reason::BadBase64 => 10,
            Reason::OpenField => 11,
            Reason::NoSection => 12,
            Reason::BadOctets => 13,
            Reason::BadPixels => 14,
            Reason::NoRoom => 15,
            Reason::LongName => 17,
            Reason::NotBinary => 18,
        }
    }
}

impl Reason {
    // The refusal for this reason, at a place: 0 where document 01 places what is no byte of a file.
    pub fn at(self, place: usize) -> Refusal
        ensures { result ≡ record { number = number_of self; place = place } }
    {
        Refusal::new(u32::from(self), place)
    }
}
