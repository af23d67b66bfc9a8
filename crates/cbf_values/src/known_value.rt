// The value of a known header.
ghost use Rattle.std.specs.Prelude.{◌≡◌};
ghost use Rattle.cbf_format.specs.Text.{trim};
ghost use Rattle.cbf_format.specs.Values.{value_of};
ghost use Rattle.cbf_values.specs.Value.{joined};
ghost use Rattle.cbf_values.specs.KnownValue.{InRangeOf};

use crate::content_type::content_type;
use crate::header::{BYTE_ORDERS, ENCODINGS, TYPES, one_of};
use crate::value::{number, trimmed, unquoted};
use cbf_answers::{FILE_LIMIT, PIXEL_LIMIT};
use cbf_format::KnownHeader;

// The value of a known header, None where it is bad.
pub fn known_value(text: &[u8], known: KnownHeader) -> Option<u64>
    ensures { (result ≡ value_of known (trim (joined text.now))) × InRangeOf result }
{
    let text = trimmed(text);
    match known {
        KnownHeader::TransferEncoding => one_of(text, &ENCODINGS, 0),
        KnownHeader::Size => number(text, 0, FILE_LIMIT as u64),
        KnownHeader::Elements => number(text, 0, PIXEL_LIMIT as u64),
        KnownHeader::ContentType => content_type(text),
        KnownHeader::Kind => one_of(unquoted(text)?, &TYPES, 1),
        KnownHeader::ByteOrder => one_of(unquoted(text)?, &BYTE_ORDERS, 1),
        KnownHeader::Id => number(text, 1, 2147483647),
        KnownHeader::Fastest | KnownHeader::Second | KnownHeader::Third => number(
            text,
            1,
            PIXEL_LIMIT as u64,
        ),
    }
}
