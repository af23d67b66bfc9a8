// Lines of the file. limit is the most characters that a text line may have.
ghost use Rattle.std.specs.Prelude.{◌≡◌, ℕ, ◌+◌, ◌<◌, ◌≤◌, List, length, drop};
ghost use Rattle.cbf_walk.specs.Parsers.{ok, hd, screen};
ghost use Rattle.cbf_format.specs.Lines.{line as line_of, end_length, text_line};
ghost use Rattle.cbf_format.specs.Headers.{header_line, malformed as malformed_text};
ghost use Rattle.cbf_format.specs.Files.{identified as identified_text, versioned as versioned_text, refused_first};
ghost use Rattle.cbf_lines.specs.Line.{farthest_from, end_from, line_at};

use crate::text;
use cbf_answers::{Reason, Refusal};

// A line: where its text ends, and where the next line starts.
#[derive(Clone, Copy, Debug, PartialEq, Eq)]
pub struct Line {
    pub to: usize,
    pub next: usize,
}

// The place limit bytes after at, or the file's end where that comes first.
pub fn farthest(file: &[u8], at: usize, limit: usize) -> usize
    requires { at ≤ length file.now }
    ensures { result ≡ farthest_from at limit (length file.now) }
{
    if limit < file.len() - at {
        return at + limit;
    }
    file.len()
}

// Where the line after the line end at i starts, where 13 is at i.
pub(crate) fn after_return(file: &[u8], i: usize) -> usize
    requires { i < length file.now }
    ensures { (result ≡ i + end_length (hd (drop (i + 1) file.now))) × (result ≤ length file.now) }
{
    if 2 <= file.len() - i && file[i + 1] == b'\n' {
        return i + 2;
    }
    i + 1
}

// Where the next line starts, where a line's text ends at i before the file's end.
pub fn after_end(file: &[u8], i: usize) -> usize
    requires { i < length file.now }
    ensures { (result ≡ end_from i (drop i file.now)) × (i < result) × (result ≤ length file.now) }
{
    if file[i] == b'\r' {
        return after_return(file, i);
    }
    i + 1
}

// The text line that starts at at.
pub fn text_line(file: &[u8], at: usize, limit: usize) -> Result<Line, Refusal>
    requires { at ≤ length file.now }
    ensures { result ≡ line_at at (text_line limit (drop at file.now)) }
{
    let i = text::after_text(file, at, farthest(file, at, limit));
    if i == file.len() {
        return Ok(Line { to: i, next: i });
    }
    match file[i] {
        b'\n' => Ok(Line { to: i, next: i + 1 }),
        b'\r' => Ok(Line {
            to: i,
            next: after_return(file, i),
        }),
        b if text::textual(b) => Err(Reason::LongLine.at(i)),
        _ => Err(Reason::NotText.at(i)),
    }
}

// Whether the text starts with a version of the format.
fn versioned(text: &[u8]) -> bool
    ensures { result ≡ versioned_text text.now }
{
    matches!(text, [b'0' | b'1', b'.', b'0'..=b'9', ..])
}

// Whether the file starts with the identifier.
fn identified(file: &[u8]) -> bool
    ensures { (t : List ℕ) (n : ℕ) → line_of file.now ≡ ok t n → result ≡ identified_text t }
{
    if file.len() < 16
        || !text::is_word(&file[..15], b"###CBF: VERSION")
        || !text::blank(file[15])
    {
        return false;
    }
    versioned(&file[text::after_blanks(file, 16, file.len())..])
}

// The first line of the file.
pub fn first_line(file: &[u8], limit: usize) -> Result<Line, Refusal>
    ensures { result ≡ line_at 0 (screen (refused_first limit) (line_of file.now)) }
{
    if !identified(file) {
        return Err(Reason::NoIdentifier.at(0));
    }
    text_line(file, 0, limit)
}

// Whether the header line with this text is malformed.
fn malformed(text: &[u8], first: bool) -> bool
    ensures { result ≡ malformed_text first text.now }
{
    if text.is_empty() {
        return false;
    }
    if text::blank(text[0]) {
        return first;
    }
    let i = text::after_name(text, 0, text.len());
    if i == 0 || i == text.len() {
        return true;
    }
    text[i] != b':'
}

// The header line that starts at at; first says that no header stands before it.
pub fn header_line(file: &[u8], at: usize, limit: usize, first: bool) -> Result<Line, Refusal>
    requires { at ≤ length file.now }
    ensures { result ≡ line_at at (header_line limit first (drop at file.now)) }
{
    let Line { to, next } = text_line(file, at, limit)?;
    if malformed(&file[at..to], first) {
        return Err(Reason::MalformedHeader.at(at));
    }
    Ok(Line { to, next })
}
