// The value of a header, as it lies in the file. It may run over continuation lines: a line end and the blanks after it
// are read as one space.
ghost use Rattle.std.specs.Prelude.{◌≡◌, option_map, IfSome};
ghost use Rattle.cbf_format.specs.Text.{lowers, same, skip, trim};
ghost use Rattle.cbf_format.specs.Values.{decimal_number as number_of, between as between_of, unquote};
ghost use Rattle.cbf_values.specs.Value.{joined, blank_or_end, Stepped, Trimmed, PartOf, RestOf};

use cbf_lines::text;

// A text without the blanks in front.
fn after_blanks(mut text: &[u8]) -> &[u8]
    ensures skipped { result.now ≡ skip text.now }
    ensures rest { RestOf text.now 0 result.now }
{
    while let [b, rest @ ..] = text
        && text::blank(*b)
    {
        text = rest;
    }
    text
}

// The first character of a value, and the rest of it.
#[tactic(auto, using(crate::proofs::ValueLaws::first_laws))]
fn first(text: &[u8]) -> Option<(u8, &[u8])>
    ensures step { Stepped text.now result }
    ensures rest { IfSome result (λ c. RestOf text.now 1 c.1.now) }
{
    match text {
        [] => None,
        [b'\r', b'\n', rest @ ..] | [b'\r' | b'\n', rest @ ..] => Some((b' ', after_blanks(rest))),
        [b, rest @ ..] => Some((*b, rest)),
    }
}

fn blank_or_end(b: u8) -> bool
    ensures { result ≡ blank_or_end b }
{
    matches!(b, b'\r' | b'\n') || text::blank(b)
}

// A value without the blanks around it.
#[tactic(auto, using(crate::proofs::ValueLaws::trim_laws))]
pub fn trimmed(text: &[u8]) -> &[u8]
    ensures value { joined result.now ≡ trim (joined text.now) }
    ensures ends { Trimmed result.now }
    ensures part { PartOf text.now result.now }
{
    let mut rest = text;
    while let [b, more @ ..] = rest
        && blank_or_end(*b)
    {
        rest = more;
    }
    while let [more @ .., b] = rest
        && blank_or_end(*b)
    {
        rest = more;
    }
    rest
}

// Whether the value in lower case is just this word.
pub fn is_value(text: &[u8], word: &[u8]) -> bool
    ensures { result ≡ same word.now (lowers (joined text.now)) }
{
    let mut rest = text;
    for b in word {
        let Some((c, next)) = first(rest) else {
            return false;
        };
        if text::lower(c) != *b {
            return false;
        }
        rest = next;
    }
    rest.is_empty()
}

// The number of 1 to 10 digits that the value is, from least to most.
pub fn number(text: &[u8], least: u64, most: u64) -> Option<u64>
    ensures { result ≡ between_of least most (number_of (joined text.now)) }
{
    if !matches!(text.len(), 1..=10) {
        return None;
    }
    let mut n = 0;
    for b in text {
        if !b.is_ascii_digit() {
            return None;
        }
        n = n * 10 + u64::from(*b - b'0');
    }
    (least <= n && n <= most).then_some(n)
}

// What stands in a pair of quotes, or all of it where there are none; None where only one quote is there.
#[tactic(auto, using(crate::proofs::HeaderLaws::quote_laws))]
pub fn unquoted(text: &[u8]) -> Option<&[u8]>
    requires { Trimmed text.now }
    ensures value { option_map (λ t. joined t.now) result ≡ unquote (joined text.now) }
    ensures part { IfSome result (λ t. PartOf text.now t.now) }
{
    match text {
        [b'"', inner @ .., b'"'] => Some(inner),
        [b'"', ..] => None,
        _ => Some(text),
    }
}
