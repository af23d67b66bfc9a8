// The value of Content-Type: parts that end at `;` outside quotes, of which one may name the compression.
ghost use Rattle.std.specs.Prelude.{◌≡◌, ◌<◌, false, [], length, is_some, option_map, unwrap_or, IfSome};
ghost use Rattle.cbf_format.specs.Text.{before, after};
ghost use Rattle.cbf_format.specs.Values.{with_part, content_type, parts};
ghost use Rattle.cbf_values.specs.Value.{joined};
ghost use Rattle.cbf_values.specs.ContentType.{offset, parts_from};

use crate::value;
use cbf_format::Conversion;

// Whether the text is the name of byte offset, quoted or not.
fn is_byte_offset(text: &[u8]) -> bool
    ensures { result ≡ is_some (offset (joined text.now)) }
{
    value::unquoted(value::trimmed(text)).is_some_and(|t| value::is_value(t, b"x-cbf_byte_offset"))
}

// What stands before the first `=` of a part, and after it if there is one.
fn at_equals(part: &[u8]) -> (&[u8], Option<&[u8]>)
    ensures before { joined result.0.now ≡ before 61 (joined part.now) }
    ensures after { unwrap_or (option_map (λ t. joined t.now) result.1) [] ≡ after 61 (joined part.now) }
{
    match part.iter().position(|b| *b == b'=') {
        Some(i) => (&part[..i], Some(&part[i + 1..])),
        None => (part, None),
    }
}

// What is said of conversions with one part more.
fn with_part(part: &[u8], found: Conversion) -> Conversion
    ensures { result ≡ with_part found (joined part.now) }
{
    let (name, value) = at_equals(part);
    if !value::is_value(value::trimmed(name), b"conversions") {
        return found;
    }
    match (found, value) {
        (Conversion::Unseen, Some(value)) if is_byte_offset(value) => Conversion::Seen,
        _ => Conversion::Wrong,
    }
}

// The first part, up to a `;` outside quotes, and what follows the `;` if there is one; None where a quote is not
// closed.
fn first_part(text: &[u8]) -> Option<(&[u8], Option<&[u8]>)>
    ensures parts { parts false (joined text.now) ≡ parts_from result }
    ensures shorter { IfSome result (λ p. IfSome p.1 (λ rest. length rest.now < length text.now)) }
{
    let mut quoted = false;
    for (i, b) in text.iter().enumerate() {
        match b {
            b'"' => quoted = !quoted,
            b';' if !quoted => return Some((&text[..i], Some(&text[i + 1..]))),
            _ => {}
        }
    }
    if quoted {
        return None;
    }
    Some((text, None))
}

// The compression that the value names: 0 for none, 1 for byte offset.
pub fn content_type(text: &[u8]) -> Option<u64>
    ensures { result ≡ content_type (parts false (joined text.now)) }
{
    // the first part is free
    let (_, mut rest) = first_part(text)?;
    let mut found = Conversion::Unseen;
    while let Some(text) = rest {
        let (part, next) = first_part(text)?;
        found = with_part(part, found);
        rest = next;
    }
    match found {
        Conversion::Unseen => Some(0),
        Conversion::Seen => Some(1),
        Conversion::Wrong => None,
    }
}
