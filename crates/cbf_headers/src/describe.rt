// What a section's headers say of it, from the values that were found: refusal 6 for a header that is missing, and 7.
ghost use Rattle.std.specs.Prelude.{◌≡◌, List, ℕ};
ghost use Rattle.cbf_format.specs.Descriptions.{size_agrees, dimensions_agree, optional, found, verdict_of};
ghost use Rattle.cbf_format.specs.Descriptions.{encoding_of, compression_of, type_of};
ghost use Rattle.cbf_headers.specs.Found.{found_of, InRange};
ghost use Rattle.cbf_headers.specs.Describe.{described_by, Few};

use crate::found::Found;
use cbf_answers::Reason;
use cbf_format::{Description, Encoding, KnownHeader};
use cbf_pixels::{Compression, ElementType};

// Whether size and elements agree.
fn size_agrees(d: Description) -> bool
    requires { Few d }
    ensures { result ≡ size_agrees d.compression d.kind d.size d.elements }
{
    match d.compression {
        Compression::Uncompressed => d.size == d.elements * cbf_pixels::octets_per(d.kind) as u64,
        Compression::ByteOffset => d.elements <= d.size && d.size <= 15 * d.elements,
    }
}

// Whether the dimensions and elements agree; 0 stands for one that is absent, as in every description.
fn dimensions_agree(d: Description) -> bool
    requires { Few d }
    ensures { result ≡ dimensions_agree (optional d.fastest) (optional d.second) (optional d.third) d.elements }
{
    match (d.fastest, d.second, d.third) {
        (0, 0, 0) => true,
        (0, _, _) => false,
        (_, 0, 0) => d.fastest == d.elements,
        (_, 0, _) => false,
        (_, _, 0) => d.fastest * d.second == d.elements,
        _ => {
            // an area of at most 2^31, so that the product fits
            let area = d.fastest * d.second;
            area <= d.elements && area * d.third == d.elements
        }
    }
}

// The definitions hold the value of each header as a number, also where it is one of some words; these three functions
// say what the number stands for.

// The encoding of a number, 0 for BINARY.
fn encoding_of(number: u64) -> Encoding
    ensures { result ≡ encoding_of number }
{
    match number {
        0 => Encoding::Binary,
        _ => Encoding::Base64,
    }
}

// The compression of a number, 0 for none.
fn compression(number: u64) -> Compression
    ensures { result ≡ compression_of number }
{
    match number {
        0 => Compression::Uncompressed,
        _ => Compression::ByteOffset,
    }
}

// The element type of a number.
fn element_type(number: u64) -> ElementType
    ensures { result ≡ type_of number }
{
    match number {
        0..=1 => ElementType::U8,
        2 => ElementType::S8,
        3 => ElementType::U16,
        4 => ElementType::S16,
        5 => ElementType::U32,
        _ => ElementType::S32,
    }
}

// What the values say, or why they say nothing: a needed header is missing, or the counts disagree.
pub fn describe(values: Found) -> Result<Description, Reason>
    requires { InRange values }
    ensures { (fs : List (KnownHeader × ℕ)) → values ≡ found_of fs → result
        ≡ described_by (verdict_of 0 (found fs)) }
{
    let encoding = values.encoding.ok_or(Reason::BadHeader)?;
    let size = values.size.ok_or(Reason::BadHeader)?;
    let elements = values.elements.ok_or(Reason::BadHeader)?;
    let description = Description {
        encoding: encoding_of(encoding),
        size,
        elements,
        compression: compression(values.compression.unwrap_or(0)),
        kind: element_type(values.kind.unwrap_or(5)),
        id: values.id.unwrap_or(0),
        fastest: values.fastest.unwrap_or(0),
        second: values.second.unwrap_or(0),
        third: values.third.unwrap_or(0),
    };
    if size_agrees(description) && dimensions_agree(description) {
        Ok(description)
    } else {
        Err(Reason::CountsDisagree)
    }
}
