// Reading a file section by section. Nothing is stored for a section that was passed.
ghost use Rattle.std.specs.Prelude.{◌≡◌, ◌↔◌, IsTrue, ℕ};
ghost use Rattle.cbf_reader.specs.Step.{Ready};
ghost use Rattle.cbf_reader.specs.Walk.{start_cursor, StartSays, opened_at, end_of, FieldReady, ReadTo, NextSays};
ghost use Rattle.cbf_format.specs.Files as F;

use crate::step;
use crate::step::{Cursor, Field, SECTION_LIMIT};
use cbf_answers::{FILE_LIMIT, Reason, Refusal};
use cbf_format::{Range, Section, Stop};

// The next section, and the cursor after it.
#[derive(Clone, Copy, Debug, PartialEq, Eq)]
pub struct NextSection {
    pub section: Section,
    pub after: Cursor,
}

// The cursor before the first line.
fn first_cursor() -> Cursor
    ensures { result ≡ start_cursor }
{
    Cursor {
        at: 0,
        count: 0,
        block: Range { from: 0, to: 0 },
        field: Field::First,
    }
}

// Where reading begins: the cursor before the first line. "Too long comes before all"; "an empty file is refusal 1".
#[tactic(auto, using(crate::proofs::WalkLaws::reads))]
pub fn begin(file: &[u8]) -> Result<Cursor, Refusal>
    ensures { (limit : ℕ) → StartSays limit file.now result }
{
    if FILE_LIMIT < file.len() {
        return Err(Reason::TooLarge.at(0));
    }
    if file.is_empty() {
        return Err(Reason::NoIdentifier.at(0));
    }
    Ok(first_cursor())
}

impl Field {
    // The place of the opening `;`, where a field is open.
    fn opened_at(self) -> Option<usize>
        ensures { result ≡ opened_at self }
    {
        match self {
            Field::First | Field::Outside => None,
            Field::Opened(p) | Field::Inside(p) => Some(p),
        }
    }
}

// What the file's end means, by the open field.
fn at_end(field: Field) -> Result<Option<NextSection>, Refusal>
    ensures { result ≡ end_of (opened_at field) }
{
    match field.opened_at() {
        None => Ok(None),
        Some(place) => Err(Reason::OpenField.at(place)),
    }
}

// The next section from a cursor that stands in the file.
fn section_from(file: &[u8], c: Cursor, limit: usize) -> Result<Option<NextSection>, Refusal>
    requires { Ready file.now c }
    ensures { (done : F.Tree) → ReadTo limit file.now done c → NextSays limit file.now
        done result }
{
    let mut cursor = c;
    // no `for`: how far a turn goes is known when it is over
    while cursor.at < file.len() {
        match step::step(file, cursor, limit) {
            Err(Stop::Refused(refusal)) => return Err(refusal),
            Err(Stop::CutOff) => {
                let place = cursor.field.opened_at().unwrap_or(cursor.at);
                return Err(Reason::OpenField.at(place));
            }
            Ok(stepped) => {
                if let Some(section) = stepped.section {
                    return Ok(Some(NextSection {
                        section,
                        after: stepped.cursor,
                    }));
                }
                cursor = stepped.cursor;
            }
        }
    }
    at_end(cursor.field)
}

// Whether the field's place agrees with the cursor's.
fn field_is_ready(field: Field, at: usize) -> bool
    ensures { IsTrue result ↔ FieldReady field at }
{
    match field {
        Field::First => at == 0,
        Field::Outside => true,
        Field::Opened(p) | Field::Inside(p) => p <= at,
    }
}

// Whether the cursor stands in the file, as each cursor does that begin and next_section give for it.
fn is_ready(file: &[u8], c: Cursor) -> bool
    ensures { IsTrue result ↔ Ready file.now c }
{
    file.len() <= FILE_LIMIT
        && c.at <= file.len()
        && c.count <= SECTION_LIMIT
        && c.block.from <= c.block.to
        && c.block.to <= file.len()
        && field_is_ready(c.field, c.at)
}

// The next section from the cursor on, or none where the file ends without one. A cursor of another file may stand
// nowhere in this one: then there is none.
pub fn next_section(file: &[u8], c: Cursor, limit: usize) -> Result<Option<NextSection>, Refusal>
    ensures { (done : F.Tree) → ReadTo limit file.now done c → NextSays limit file.now
        done result }
{
    if !is_ready(file, c) {
        return Ok(None);
    }
    section_from(file, c, limit)
}
