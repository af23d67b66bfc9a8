// The known headers' names, and the words that are their values.
ghost use Rattle.std.specs.Prelude.{◌≡◌, ◌+◌, ◌<◌, ◌≤◌, length, map, position, IfSome};
ghost use Rattle.cbf_format.specs.Text.{lowers, same};
ghost use Rattle.cbf_format.specs.Values.{known_headers, header_named, one_of};
ghost use Rattle.cbf_values.specs.Header.{header_in};
ghost use Rattle.cbf_values.specs.Value.{joined};

use crate::value;
use cbf_format::KnownHeader;
use cbf_lines::text;

const NAMES: [(&[u8], KnownHeader); 10] = [
    (b"content-transfer-encoding", KnownHeader::TransferEncoding),
    (b"x-binary-size", KnownHeader::Size),
    (b"x-binary-number-of-elements", KnownHeader::Elements),
    (b"content-type", KnownHeader::ContentType),
    (b"x-binary-element-type", KnownHeader::Kind),
    (b"x-binary-element-byte-order", KnownHeader::ByteOrder),
    (b"x-binary-id", KnownHeader::Id),
    (b"x-binary-size-fastest-dimension", KnownHeader::Fastest),
    (b"x-binary-size-second-dimension", KnownHeader::Second),
    (b"x-binary-size-third-dimension", KnownHeader::Third),
];

// The header of the table whose name it is in any case, if any.
fn named(table: &[(&[u8], KnownHeader)], name: &[u8]) -> Option<KnownHeader>
    ensures { result ≡ header_in table.now name.now }
{
    // a `for`: `find` with `map` behind it got no proof
    for (word, header) in table {
        if text::is_word_in_any_case(name, word) {
            return Some(*header);
        }
    }
    None
}

// Which known header the name is, if any.
pub fn known(name: &[u8]) -> Option<KnownHeader>
    ensures { result ≡ header_named known_headers name.now }
{
    named(&NAMES, name)
}

pub(crate) const ENCODINGS: [&[u8]; 2] = [b"binary", b"base64"];

// From 1, as in the catalogue.
pub(crate) const TYPES: [&[u8]; 6] = [
    b"unsigned 8-bit integer",
    b"signed 8-bit integer",
    b"unsigned 16-bit integer",
    b"signed 16-bit integer",
    b"unsigned 32-bit integer",
    b"signed 32-bit integer",
];

pub(crate) const BYTE_ORDERS: [&[u8]; 1] = [b"little_endian"];

// Which of the words the value is in any case.
fn place(text: &[u8], words: &[&[u8]]) -> Option<usize>
    ensures value { result ≡ position (λ word. same word.now (lowers (joined text.now))) words.now }
    ensures within { IfSome result (λ i. i < length words.now) }
{
    words.iter().position(|word| value::is_value(text, word))
}

// The same, counted from k.
#[tactic(auto, using(crate::proofs::HeaderLaws::one_of_place))]
pub(crate) fn one_of(text: &[u8], words: &[&[u8]], k: u8) -> Option<u64>
    ensures { result ≡ one_of k (map (λ word. word.now) words.now) (joined text.now) }
{
    Some(u64::from(k) + place(text, words)? as u64)
}
