// What follows the empty line after a section's headers, in either transfer encoding.
ghost use Rattle.std.specs.Prelude.{◌≡◌, ◌≤◌, length, drop};
ghost use Rattle.cbf_answers.specs.Limits.{file_limit};
ghost use Rattle.cbf_format.specs.Sections.{binary_data, base64_data, data_for};
ghost use Rattle.cbf_reader.specs.Data.{data_at};

use cbf_answers::Reason;
use cbf_base64::{base64, base64_text};
use cbf_format::{CLOSING_LENGTH, Encoding, Stop};
use cbf_lines::closing;

// "0C 1A 04 D5": the start marker of the octets.
const MARKER: [u8; 4] = *b"\x0c\x1a\x04\xd5";

// Where the first octet is (BASE64: the text), where the section's span ends, and where the next line starts.
#[derive(Clone, Copy)]
pub struct Data {
    pub first: usize,
    pub to: usize,
    pub next: usize,
}

// The octets of a BINARY section, after the marker at at.
fn binary_data(file: &[u8], at: usize, size: usize, limit: usize) -> Result<Data, Stop>
    requires { at ≤ length file.now }
    ensures { result ≡ data_at at (binary_data limit size (drop at file.now)) }
{
    if !file[at..].starts_with(&MARKER) {
        return Err(Stop::Refused(Reason::NoMarker.at(at)));
    }
    let first = at + MARKER.len();
    if file.len() - first < size {
        return Err(Stop::Refused(Reason::BadClosing.at(file.len())));
    }
    let after = first + size;
    let unclosed = Reason::BadClosing.at(after);
    let ending = closing::closed(file, after, limit).ok_or(unclosed)?;
    Ok(Data {
        first,
        to: ending.to,
        next: ending.next,
    })
}

// The text of a BASE64 section, at at.
fn base64_data(file: &[u8], at: usize, size: usize, limit: usize) -> Result<Data, Stop>
    requires { (at ≤ length file.now) × (length file.now ≤ file_limit) }
    ensures { result ≡ data_at at (base64_data limit size (drop at file.now)) }
{
    let text = base64_text::base64_text(file, at, limit)?;
    if !base64::groups_hold(text.groups, size) {
        return Err(Stop::Refused(Reason::BadBase64.at(text.closing)));
    }
    let unclosed = Reason::BadClosing.at(text.closing);
    let next = closing::semicolon_line(file, text.next, limit).ok_or(unclosed)?;
    Ok(Data {
        first: at,
        to: text.closing + CLOSING_LENGTH,
        next,
    })
}

// The data of a section whose headers declare the encoding and the size, at at. Only the text of BASE64 is searched for
// the closing boundary: BINARY octets are as many as declared.
pub fn data_for(
    file: &[u8],
    at: usize,
    encoding: Encoding,
    size: usize,
    limit: usize,
) -> Result<Data, Stop>
    requires { (at ≤ length file.now) × (length file.now ≤ file_limit) }
    ensures { result ≡ data_at at (data_for limit encoding size (drop at file.now)) }
{
    match encoding {
        Encoding::Binary => binary_data(file, at, size, limit),
        Encoding::Base64 => base64_data(file, at, size, limit),
    }
}
