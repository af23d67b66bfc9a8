// The text of a BASE64 section: its lines up to the closing boundary.
ghost use Rattle.std.specs.Prelude.{◌≡◌, ◌+◌, ◌≤◌, ◌<◌, [], length, drop};
ghost use Rattle.cbf_walk.specs.Parsers.{screen};
ghost use Rattle.cbf_format.specs.Lines.{line as line_of};
ghost use Rattle.cbf_format.specs.Base64.{letters, refused_text};
ghost use Rattle.cbf_format.specs.Sections.{closing as boundary};
ghost use Rattle.cbf_answers.specs.Answers.{number_of};
ghost use Rattle.cbf_answers.specs.Limits.{file_limit};
ghost use Rattle.cbf_base64.specs.Base64.{groups_of};
ghost use Rattle.cbf_base64.specs.Base64Text.{closing_at, refused_number, base64_line_at, FewOfLine, letters_at};
ghost use Rattle.cbf_base64.specs.Base64Text.{FewOfText};

use crate::base64;
use crate::base64::{Groups, Symbols};
use cbf_answers::{Reason, Refusal};
use cbf_format::{CLOSING, CLOSING_LENGTH, Stop};
use cbf_lines::{closing, line, text};

// A line of the text: the place after the closing boundary's line; or the symbols so far with the line's, and the
// place after it.
#[derive(Clone, Copy)]
pub enum Base64Line {
    Closing(usize),
    Text(Groups, usize),
}

// The text: its symbols, the place of the closing boundary, and the place after its line.
#[derive(Clone, Copy, Debug, PartialEq, Eq)]
pub struct Base64Text {
    pub groups: Groups,
    pub closing: usize,
    pub next: usize,
}

// Where the line after the closing boundary starts, where that is the line at at.
fn closing_line(file: &[u8], at: usize) -> Option<usize>
    requires { at ≤ length file.now }
    ensures { result ≡ closing_at at (line_of (drop at file.now)) }
{
    if file.len() - at < CLOSING_LENGTH {
        return None;
    }
    let to = at + CLOSING_LENGTH;
    if !text::is_word(&file[at..to], &CLOSING) {
        return None;
    }
    closing::ended(file, to)
}

// Why a byte is refused that no text line of BASE64 has at this column.
fn refused_for(b: u8, column: usize, limit: usize) -> Reason
    ensures { number_of result ≡ refused_number b column limit }
{
    if !text::textual(b) {
        Reason::NotText
    } else if column < limit {
        Reason::BadBase64
    } else {
        Reason::LongLine
    }
}

// The line of the text that starts at at.
fn base64_line(file: &[u8], at: usize, limit: usize, g: Groups) -> Result<Base64Line, Refusal>
    requires { (at ≤ length file.now) × (length file.now ≤ file_limit) × (g.letters + g.pads ≤ at) }
    ensures { (result ≡ base64_line_at at g (screen (refused_text limit boundary)
        (line_of (drop at file.now)))) × FewOfLine result }
{
    if let Some(next) = closing_line(file, at) {
        return Ok(Base64Line::Closing(next));
    }
    let Symbols { groups, to } = base64::text_symbols(file, at, line::farthest(file, at, limit), g);
    let Some(next) = closing::ended(file, to) else {
        return Err(refused_for(file[to], to - at, limit).at(to));
    };
    Ok(Base64Line::Text(groups, next))
}

// The text that starts at at.
pub fn base64_text(file: &[u8], at: usize, limit: usize) -> Result<Base64Text, Stop>
    requires { (at ≤ length file.now) × (length file.now ≤ file_limit) }
    ensures { (result ≡ letters_at at at (groups_of []) (letters limit boundary file_limit 0
        (drop at file.now))) × FewOfText result }
{
    let mut groups = Groups::none();
    let mut closing = at;
    // no `for`: how far a turn goes is known when it is over
    while closing < file.len() {
        match base64_line(file, closing, limit, groups)? {
            Base64Line::Closing(next) => {
                return Ok(Base64Text {
                    groups,
                    closing,
                    next,
                });
            }
            Base64Line::Text(more, next) => {
                groups = more;
                closing = next;
            }
        }
    }
    Err(Stop::CutOff)
}
