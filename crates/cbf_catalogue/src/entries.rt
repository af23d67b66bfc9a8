// The entries of a file's sections, counted or written: one loop for both.
ghost use Rattle.std.specs.Prelude.{◌≡◌, true, ◌-◌, ◌<◌, ◌≤◌, length};
ghost use Rattle.cbf_answers.specs.Limits.{file_limit};
ghost use Rattle.cbf_reader.specs.Walk.{start_cursor, whole};
ghost use Rattle.cbf_catalogue.specs.Entries.{EntriesFit, entries_of, entries_in, with_name, finished_by};
ghost use Rattle.cbf_format.specs.Files as F;

use crate::entry;
use cbf_answers::{Reason, Refusal};
use cbf_format::{LABEL_WIDTH, Range};
use cbf_reader::Cursor;

// The boundary line of the first section with a long name, with one section more, whose boundary line is at from.
fn with_name(found: Option<usize>, block: Range, from: usize) -> Option<usize>
    requires { block.from ≤ block.to }
    ensures { result ≡ with_name found (block.to - block.from) from }
{
    if found.is_some() || block.to - block.from <= LABEL_WIDTH {
        return found;
    }
    Some(from)
}

// What the pass found: the number of the sections, or 17 at the boundary line of the first with a long name.
fn finished(found: Option<usize>, count: usize) -> Result<usize, Refusal>
    ensures { result ≡ finished_by found count }
{
    match found {
        None => Ok(count),
        Some(place) => Err(Reason::LongName.at(place)),
    }
}

// The entries from the first one on; writing says whether they go to out. A closure in its place would have to be lent
// out and say by a fold over the sections what `entries_in` says here of the whole.
fn entries_from(
    file: &[u8],
    limit: usize,
    out: &mut [u8],
    writing: bool,
    first: Cursor,
) -> Result<usize, Refusal>
    requires { (first ≡ start_cursor) × (0 < length file.now) × (length file.now ≤ file_limit)
        × (writing ≡ true → EntriesFit (whole limit file.now) out.old) }
    ensures value { result ≡ entries_of (whole limit file.now) }
    ensures out_after { out.new ≡ entries_in writing (whole limit file.now) out.old }
{
    let mut cursor = first;
    let mut found = None;
    while let Some(next) = cbf_reader::next_section(file, cursor, limit)? {
        let section = next.section;
        if writing {
            entry::put_entry(file, section, out, 8 + 64 * cursor.count);
        } else {
            found = with_name(found, section.block, section.from);
        }
        cursor = next.after;
    }
    finished(found, cursor.count)
}

// The entries of a file whose text lines have at most limit characters. They are written only to an output that is
// known to have room.
pub fn entries(file: &[u8], limit: usize, out: &mut [u8], writing: bool) -> Result<usize, Refusal>
    requires { writing ≡ true → EntriesFit (F.read limit file.now) out.old }
    ensures value { result ≡ entries_of (F.read limit file.now) }
    ensures out_after { out.new ≡ entries_in writing (F.read limit file.now) out.old }
{
    let first = cbf_reader::begin(file)?;
    entries_from(file, limit, out, writing, first)
}
