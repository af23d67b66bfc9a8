// What follows the octets of a section.
ghost use Rattle.std.specs.Prelude.{◌≡◌, ◌+◌, ◌≤◌, length, drop};
ghost use Rattle.cbf_format.specs.Lines.{line_end, semicolon_line};
ghost use Rattle.cbf_format.specs.Sections.{after_span as after_span_of, closed as closed_by};
ghost use Rattle.cbf_lines.specs.Closing.{next_at, ended_at, closed_at};

use crate::{line, text};
use cbf_format::{CLOSING, CLOSING_LENGTH};

// The line end at at.
pub fn line_end(file: &[u8], at: usize) -> Option<usize>
    requires { at ≤ length file.now }
    ensures { result ≡ next_at at (line_end (drop at file.now)) }
{
    if at == file.len() {
        return None;
    }
    match file[at] {
        b'\n' => Some(at + 1),
        b'\r' => Some(line::after_return(file, at)),
        _ => None,
    }
}

// Where the next line starts, where a line ends at i: with a line end or with the file.
pub fn ended(file: &[u8], i: usize) -> Option<usize>
    requires { i ≤ length file.now }
    ensures { result ≡ ended_at i (drop i file.now) }
{
    if i == file.len() {
        return Some(i);
    }
    line_end(file, i)
}

// The line of `;` and blanks at at.
pub fn semicolon_line(file: &[u8], at: usize, limit: usize) -> Option<usize>
    requires { at ≤ length file.now }
    ensures { result ≡ next_at at (semicolon_line limit (drop at file.now)) }
{
    if file.len() == at || file[at] != b';' {
        return None;
    }
    let to = text::after_blanks(file, at + 1, file.len());
    if limit < to - at {
        return None;
    }
    ended(file, to)
}

// What follows a span: its line end, and the line of `;` and blanks.
pub fn after_span(file: &[u8], at: usize, limit: usize) -> Option<usize>
    requires { at ≤ length file.now }
    ensures { result ≡ next_at at (after_span_of limit (drop at file.now)) }
{
    semicolon_line(file, line_end(file, at)?, limit)
}

// The end of a BINARY section: where its span ends, and where the next line starts.
#[derive(Clone, Copy, Debug, PartialEq, Eq)]
pub struct Ending {
    pub to: usize,
    pub next: usize,
}

// The closing that starts right after the octets, at at.
pub fn closed(file: &[u8], at: usize, limit: usize) -> Option<Ending>
    requires { at ≤ length file.now }
    ensures { result ≡ closed_at at (closed_by limit (drop at file.now)) }
{
    let i = line_end(file, at)?;
    if file.len() - i < CLOSING_LENGTH {
        return None;
    }
    let to = i + CLOSING_LENGTH;
    if !text::is_word(&file[i..to], &CLOSING) {
        return None;
    }
    let next = after_span(file, to, limit)?;
    Some(Ending { to, next })
}
