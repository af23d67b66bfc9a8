// One pass over a whole file: how many sections it has, and the one with a given number.
ghost use Rattle.std.specs.Prelude.{◌≡◌};
ghost use Rattle.cbf_reader.specs.WholeFile.{WholeFileSays, count_of, PlaceSays, NumberedSays};
ghost use Rattle.cbf_format.specs.Files as F;

use crate::step::Cursor;
use crate::walk;
use cbf_answers::{Reason, Refusal};
use cbf_format::Section;

// A section with the cursors before and after it: from the first, next_section finds it and gives the second.
#[derive(Clone, Copy, Debug, PartialEq, Eq)]
pub struct SectionFound {
    pub before: Cursor,
    pub section: Section,
    pub after: Cursor,
}

// The number of a file's sections, with the one that is requested, if the file has it.
#[derive(Clone, Copy)]
pub struct FileSections {
    pub count: usize,
    pub requested: Option<SectionFound>,
}

// One pass over the file, whose text lines have at most limit characters.
fn read_file(file: &[u8], limit: usize, number: usize) -> Result<FileSections, Refusal>
    ensures { WholeFileSays limit file.now number (F.read limit file.now) result }
{
    let mut cursor = walk::begin(file)?;
    let mut requested = None;
    while let Some(next) = walk::next_section(file, cursor, limit)? {
        if next.after.count == number {
            requested = Some(SectionFound {
                before: cursor,
                section: next.section,
                after: next.after,
            });
        }
        cursor = next.after;
    }
    Ok(FileSections {
        count: cursor.count,
        requested,
    })
}

// How many sections the file has.
pub fn count_sections(file: &[u8], limit: usize) -> Result<usize, Refusal>
    ensures { result ≡ count_of (F.read limit file.now) }
{
    // no section has the number 0: only the count is wanted
    Ok(read_file(file, limit, 0)?.count)
}

// The section with this number, counted from 1, with the cursors before and after it; "section number is 0 or above
// the count" is 12.
pub fn section_place(file: &[u8], limit: usize, number: usize) -> Result<SectionFound, Refusal>
    ensures { PlaceSays limit file.now number (F.read limit file.now) result }
{
    read_file(file, limit, number)?
        .requested
        .ok_or(Reason::NoSection.at(0))
}

// The section with this number alone. The contract leaves free where in the file the block's name of the section lies,
// and says that the name is there.
pub fn numbered_section(file: &[u8], limit: usize, number: usize) -> Result<Section, Refusal>
    ensures { NumberedSays file.now number (F.read limit file.now) result }
{
    Ok(section_place(file, limit, number)?.section)
}
