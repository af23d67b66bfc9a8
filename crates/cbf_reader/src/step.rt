// One step of reading: a line, or a whole section.
ghost use Rattle.std.specs.Prelude.{◌≡◌, ◌&&◌, List, ℕ, ◌+◌, ◌-◌, ◌≤◌, length, drop};
ghost use Rattle.std.proofs.Math.Seq.{slice};
ghost use Rattle.cbf_format.specs.Text.{same};
ghost use Rattle.cbf_answers.specs.Limits.{file_limit};
ghost use Rattle.cbf_format.specs.Sections.{opening, section as section_of};
ghost use Rattle.cbf_reader.specs.Step.{line_of_field, field_at, Back, NextBlock, section_read_at, Ready, CursorOf};
ghost use Rattle.cbf_reader.specs.Step.{StepSays, section_step};
ghost use Rattle.cbf_format.specs.Files as F;

use crate::data;
use cbf_answers::{Reason, Refusal};
use cbf_format::{OPENING, Range, Section, Stop};
use cbf_headers::section_headers;
use cbf_lines::line::Line;
use cbf_lines::{line, text};

// "Sections: at most 512".
pub const SECTION_LIMIT: usize = 512;

// "A line outside fields starting with `data_` (any case) sets the block name".
const BLOCK_WORD: [u8; 5] = *b"data_";

// The state between two lines: in a text field, the place of its opening `;`.
#[derive(Clone, Copy, Debug, PartialEq, Eq)]
pub enum Field {
    First,
    Outside,
    Opened(usize),
    Inside(usize),
}

// Where reading stands: a place, how many sections were read, the name of the data block, and the field.
#[derive(Clone, Copy, Debug, PartialEq, Eq)]
pub struct Cursor {
    pub at: usize,
    pub count: usize,
    pub block: Range,
    pub field: Field,
}

// A section, and where the next line starts.
#[derive(Clone, Copy)]
pub struct SectionRead {
    pub section: Section,
    pub next: usize,
}

// The section whose boundary line starts at from and ends at at.
fn section_at(
    file: &[u8],
    from: usize,
    at: usize,
    block: Range,
    limit: usize,
) -> Result<SectionRead, Stop>
    requires { (from ≤ at) × (at ≤ length file.now) × (length file.now ≤ file_limit) }
    ensures { (b : List ℕ) → result ≡ section_read_at from at block (section_of limit b (at - from)
        (drop at file.now)) }
{
    let headers = section_headers::section_headers(file, at, limit)?;
    let description = headers.description;
    let data = data::data_for(
        file,
        headers.next,
        description.encoding,
        description.size as usize,
        limit,
    )?;
    Ok(SectionRead {
        section: Section {
            description,
            from,
            to: data.to,
            first: data.first,
            block,
        },
        next: data.next,
    })
}

// The data block's name after the line from at up to to, outside fields.
fn next_block(file: &[u8], at: usize, to: usize, block: Range) -> Range
    requires { (at ≤ to) × (to ≤ length file.now) × (block.from ≤ block.to) × (block.to ≤ length file.now) }
    ensures { NextBlock file.now at to block result }
{
    if to - at < BLOCK_WORD.len() {
        return block;
    }
    let name = at + BLOCK_WORD.len();
    if !text::is_word_in_any_case(&file[at..name], &BLOCK_WORD) {
        return block;
    }
    Range {
        from: name,
        to: text::after(file, name, to, |b| !text::blank(b)),
    }
}

// Whether the line starts with `;`.
fn starts_field(line: &[u8]) -> bool
    ensures { result ≡ F.starts_field line.now }
{
    line.starts_with(b";")
}

// The field after a line at at that is no boundary.
fn next_field(field: Field, at: usize, line: &[u8]) -> Field
    ensures { (f : F.Field) (n : ℕ) → Back at f → field ≡ field_at at f → result ≡ field_at (at + n)
        (F.next_field f line.now n) }
{
    match (field, starts_field(line)) {
        (Field::First, _) => Field::Outside,
        (Field::Outside, true) if text::is_blank_text(&line[1..]) => Field::Opened(at),
        (Field::Outside, true) => Field::Inside(at),
        (Field::Outside, false) => Field::Outside,
        (Field::Opened(_) | Field::Inside(_), true) => Field::Outside,
        (Field::Opened(p) | Field::Inside(p), false) => Field::Inside(p),
    }
}

// The line at at: the first one, or another.
fn line_of_field(file: &[u8], at: usize, field: Field, limit: usize) -> Result<Line, Refusal>
    requires { at ≤ length file.now }
    ensures { (f : F.Field) → Back at f → field ≡ field_at at f → result ≡ line_of_field at limit f
        (drop at file.now) }
{
    match field {
        Field::First => line::first_line(file, limit),
        _ => line::text_line(file, at, limit),
    }
}

// What one step gave: the section, where the step was over one, and the cursor after it.
#[derive(Clone, Copy)]
pub struct Stepped {
    pub section: Option<Section>,
    pub cursor: Cursor,
}

// The step over the section whose boundary line is from c.at up to next.
fn section_step(file: &[u8], c: Cursor, next: usize, limit: usize) -> Result<Stepped, Stop>
    requires { Ready file.now c × (c.at ≤ next) × (next ≤ length file.now) }
    ensures { (st : F.State) → CursorOf file.now c st → StepSays file.now c
        (section_step limit st (next - c.at) (drop next file.now)) result }
{
    if SECTION_LIMIT <= c.count {
        return Err(Stop::Refused(Reason::TooLarge.at(c.at)));
    }
    let read = section_at(file, c.at, next, c.block, limit)?;
    Ok(Stepped {
        section: Some(read.section),
        cursor: Cursor {
            at: read.next,
            count: c.count + 1,
            block: c.block,
            field: Field::Outside,
        },
    })
}

// Whether the line is an opening boundary: in a field that has just opened.
fn is_boundary(field: Field, line: &[u8]) -> bool
    ensures { (at : ℕ) (f : F.Field) → field ≡ field_at at f → result ≡ (F.is_opened f && same line.now opening) }
{
    matches!(field, Field::Opened(_)) && text::is_word(line, &OPENING)
}

// The cursor after a line that is no boundary.
fn line_step(file: &[u8], c: Cursor, line: Line) -> Cursor
    requires { (c.at ≤ line.to) × (line.to ≤ length file.now) × (c.block.from ≤ c.block.to)
        × (c.block.to ≤ length file.now) }
    ensures { (st : F.State) (n : ℕ) → line.next ≡ c.at + n → CursorOf file.now c st
        → CursorOf file.now result (F.after_line st (slice c.at line.to file.now) n) × (result.at ≡ line.next)
        × (result.block.from ≤ result.block.to) × (result.block.to ≤ length file.now) }
{
    let block = match c.field {
        Field::Outside => next_block(file, c.at, line.to, c.block),
        _ => c.block,
    };
    Cursor {
        at: line.next,
        count: c.count,
        block,
        field: next_field(c.field, c.at, &file[c.at..line.to]),
    }
}

// One step from the cursor.
pub fn step(file: &[u8], c: Cursor, limit: usize) -> Result<Stepped, Stop>
    requires { Ready file.now c }
    ensures { (st : F.State) → CursorOf file.now c st → StepSays file.now c
        (F.step limit st (drop c.at file.now)) result }
{
    let line = line_of_field(file, c.at, c.field, limit)?;
    if is_boundary(c.field, &file[c.at..line.to]) {
        return section_step(file, c, line.next, limit);
    }
    Ok(Stepped {
        section: None,
        cursor: line_step(file, c, line),
    })
}
