// SPDX-License-Identifier: Apache-2.0
// The file format: document 01's rules as definitions (specs/), their laws (proofs/), and the types that contracts
// speak of.

#![tactic(auto)]

ghost use Rattle.std.specs.Prelude.{◌≡◌};
ghost use Rattle.cbf_format.specs.Catalogue.{encoding_number};
ghost use Rattle.cbf_format.specs.declared.Stop.TheVariants.{Refused};

use cbf_answers::Refusal;
use cbf_pixels::{Compression, ElementType};

// "If it is `;` and blanks only, and the next line is exactly `--CIF-BINARY-FORMAT-SECTION--`, the field is a binary
// section": the opening boundary, with which the span of a section starts.
pub const OPENING: [u8; 29] = *b"--CIF-BINARY-FORMAT-SECTION--";

// "Then exactly the declared octets, a line end, the line `--CIF-BINARY-FORMAT-SECTION----`": the closing boundary,
// with which the span of a section ends.
pub const CLOSING: [u8; CLOSING_LENGTH] = *b"--CIF-BINARY-FORMAT-SECTION----";

// The bytes of the closing boundary.
pub const CLOSING_LENGTH: usize = 31;

// The label of a catalogue's entry: "zero-filled to 32".
pub const LABEL_WIDTH: usize = 32;

// What a byte of BASE64 text is: a letter with its six-bit number, the pad `=`, a blank, or none of these.
#[derive(Clone, Copy, Debug, PartialEq, Eq)]
pub enum Symbol {
    Letter(u8),
    Pad,
    Blank,
    Other,
}

// "Content-Transfer-Encoding, needed: BINARY or BASE64."
#[derive(Clone, Copy, Debug, PartialEq, Eq)]
pub enum Encoding {
    Binary,
    Base64,
}

// Its number, in catalogues and for C.
impl From<Encoding> for u8 {
    ghost from_gives = { λ encoding number. number ≡ encoding_number encoding };

    fn from(encoding: Encoding) -> u8 {
        match encoding {
            Encoding::Binary => 0,
            Encoding::Base64 => 1,
        }
    }
}

// The headers whose values are read, in the order that document 01 lists them; "other headers are passed over".
#[derive(Clone, Copy, Debug, PartialEq, Eq)]
pub enum KnownHeader {
    // Content-Transfer-Encoding
    TransferEncoding,
    // X-Binary-Size
    Size,
    // X-Binary-Number-of-Elements
    Elements,
    // Content-Type
    ContentType,
    // X-Binary-Element-Type
    Kind,
    // X-Binary-Element-Byte-Order
    ByteOrder,
    // X-Binary-ID
    Id,
    // X-Binary-Size-Fastest-Dimension
    Fastest,
    // X-Binary-Size-Second-Dimension
    Second,
    // X-Binary-Size-Third-Dimension
    Third,
}

// What a section's headers say. An ID or a dimension that is absent is 0: each is at least 1 where it is given.
#[derive(Clone, Copy, Debug, PartialEq, Eq)]
pub struct Description {
    pub encoding: Encoding,
    pub size: u64,
    pub elements: u64,
    pub compression: Compression,
    pub kind: ElementType,
    pub id: u64,
    pub fastest: u64,
    pub second: u64,
    pub third: u64,
}

// What the parts of Content-Type have said so far of conversions: nothing, byte offset, or what is no value of it.
#[derive(Clone, Copy, Debug, PartialEq, Eq)]
pub enum Conversion {
    Unseen,
    Seen,
    Wrong,
}

// A part of the file.
#[derive(Clone, Copy, Debug, PartialEq, Eq)]
pub struct Range {
    pub from: usize,
    pub to: usize,
}

// A section: its headers, its span (document 01's term: from the opening boundary's first hyphen to the closing
// boundary's last), the place of the first octet (BASE64: of the text), and its data block's name.
#[derive(Clone, Copy, Debug, PartialEq, Eq)]
pub struct Section {
    pub description: Description,
    pub from: usize,
    pub to: usize,
    pub first: usize,
    pub block: Range,
}

// The place of a section's first octet, and how many octets there are.
#[derive(Clone, Copy, Debug, PartialEq, Eq)]
pub struct OctetsPlace {
    pub first: usize,
    pub size: usize,
}

// Why reading stops before what it looks for: a refusal, or that the file ends there.
#[derive(Clone, Copy, Debug, PartialEq, Eq)]
pub enum Stop {
    Refused(Refusal),
    CutOff,
}

impl From<Refusal> for Stop {
    ghost from_gives = { λ refusal stop. stop ≡ Refused refusal };

    fn from(refusal: Refusal) -> Stop {
        Stop::Refused(refusal)
    }
}
