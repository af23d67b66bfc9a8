// SPDX-License-Identifier: Apache-2.0
// The pixels of a binary section: what octets of either compression stand for, and what packing and unpacking answer,
// as definitions (specs/) and laws (proofs/), and the types that contracts speak of. The code is in cbf_unpack and
// cbf_pack.

#![tactic(auto)]

ghost use Rattle.std.specs.Prelude.{◌≡◌, ◌≤◌};
ghost use Rattle.cbf_pixels.specs.Numbers.{compression_number, type_number, element, compressed, Decoded};
ghost use Rattle.cbf_pixels.specs.Uncompressed.{octets_per};

// "Six integer element types": document 01.
#[derive(Clone, Copy, Debug, PartialEq, Eq)]
pub enum ElementType {
    U8,
    S8,
    U16,
    S16,
    U32,
    S32,
}

#[derive(Clone, Copy, Debug, PartialEq, Eq)]
pub enum Compression {
    Uncompressed,
    ByteOffset,
}

// A number that stands for no element type, or for no compression.
#[derive(Clone, Copy, Debug, PartialEq, Eq)]
pub struct UnknownNumber(pub u8);

impl From<ElementType> for u8 {
    ghost from_gives = { λ kind number. number ≡ type_number kind };

    fn from(kind: ElementType) -> u8 {
        match kind {
            ElementType::U8 => 1,
            ElementType::S8 => 2,
            ElementType::U16 => 3,
            ElementType::S16 => 4,
            ElementType::U32 => 5,
            ElementType::S32 => 6,
        }
    }
}

impl From<Compression> for u8 {
    ghost from_gives = { λ compression number. number ≡ compression_number compression };

    fn from(compression: Compression) -> u8 {
        match compression {
            Compression::Uncompressed => 0,
            Compression::ByteOffset => 1,
        }
    }
}

impl TryFrom<u8> for ElementType {
    type Error = UnknownNumber;

    ghost try_from_gives = { λ number kind. Decoded (element number) kind };

    #[tactic(auto, unfolding(crate::specs::Numbers::element))]
    fn try_from(number: u8) -> Result<ElementType, UnknownNumber> {
        match number {
            1 => Ok(ElementType::U8),
            2 => Ok(ElementType::S8),
            3 => Ok(ElementType::U16),
            4 => Ok(ElementType::S16),
            5 => Ok(ElementType::U32),
            6 => Ok(ElementType::S32),
            _ => Err(UnknownNumber(number)),
        }
    }
}

impl TryFrom<u8> for Compression {
    type Error = UnknownNumber;

    ghost try_from_gives = { λ number compression. Decoded (compressed number) compression };

    #[tactic(auto, unfolding(crate::specs::Numbers::compressed))]
    fn try_from(number: u8) -> Result<Compression, UnknownNumber> {
        match number {
            0 => Ok(Compression::Uncompressed),
            1 => Ok(Compression::ByteOffset),
            _ => Err(UnknownNumber(number)),
        }
    }
}

pub fn octets_per(kind: ElementType) -> usize
    ensures { (result ≡ octets_per kind) × (result ≤ 4) }
{
    match kind {
        ElementType::U8 | ElementType::S8 => 1,
        ElementType::U16 | ElementType::S16 => 2,
        ElementType::U32 | ElementType::S32 => 4,
    }
}
