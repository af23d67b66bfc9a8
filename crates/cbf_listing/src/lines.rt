// The lines of a file's sections, measured or written: one loop for both, so that what is written is what was measured.
ghost use Rattle.std.specs.Prelude.{◌≡◌, true, ◌<◌, ◌≤◌, length};
ghost use Rattle.cbf_answers.specs.Limits.{file_limit};
ghost use Rattle.cbf_reader.specs.Walk.{start_cursor, whole};
ghost use Rattle.cbf_listing.specs.Lines.{Fits, lines_of, lines_in};
ghost use Rattle.cbf_format.specs.Files as F;

use crate::section_line;
use cbf_answers::Refusal;
use cbf_reader::Cursor;

// The lines from the first one on; writing says whether they go to out. A closure in its place would have to be lent
// out and say by a fold over the sections what `lines_in` says here of the whole.
fn lines_from(
    file: &[u8],
    limit: usize,
    out: &mut [u8],
    writing: bool,
    first: Cursor,
) -> Result<usize, Refusal>
    requires { (first ≡ start_cursor) × (0 < length file.now) × (length file.now ≤ file_limit)
        × (writing ≡ true → Fits (whole limit file.now) out.old) }
    ensures value { result ≡ lines_of (whole limit file.now) }
    ensures out_after { out.new ≡ lines_in writing (whole limit file.now) out.old }
{
    let mut cursor = first;
    let mut at: usize = 0;
    while let Some(next) = cbf_reader::next_section(file, cursor, limit)? {
        let number = next.after.count;
        at = if writing {
            section_line::put_line(file, next.section, number, out, at)
        } else {
            at + section_line::line_length(next.section, number)
        };
        cursor = next.after;
    }
    Ok(at)
}

// The lines of a file whose text lines have at most limit characters. They are written only to an output that is
// known to have room.
pub fn lines(file: &[u8], limit: usize, out: &mut [u8], writing: bool) -> Result<usize, Refusal>
    requires { writing ≡ true → Fits (F.read limit file.now) out.old }
    ensures value { result ≡ lines_of (F.read limit file.now) }
    ensures out_after { out.new ≡ lines_in writing (F.read limit file.now) out.old }
{
    let first = cbf_reader::begin(file)?;
    lines_from(file, limit, out, writing, first)
}
