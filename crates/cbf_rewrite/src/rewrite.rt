// A file with chosen sections replaced, measured or written: one loop over its sections for both, so that what is
// written is what was measured.
ghost use Rattle.std.specs.Prelude.{◌≡◌, ◌+◌, true, ◌≤◌, length};
ghost use Rattle.cbf_answers.specs.Answers.{outcome, written};
ghost use Rattle.cbf_format.specs.ReplaceCalls.{room_for_file};
ghost use Rattle.cbf_rewrite.specs.Parts.{part_in};
ghost use Rattle.cbf_rewrite.specs.Rewrite.{rewritten, Rewritable, FoundHere, MoreAfter};

use crate::parts;
use cbf_answers::{FILE_LIMIT, Reason, Refusal};
use cbf_reader::SectionFound;

// A chosen section: its number, where its frame ends in the frames, which stand end to end, and how many octets the
// frame packs to.
#[derive(Clone, Copy, Debug, PartialEq, Eq)]
pub struct Chosen {
    pub number: usize,
    pub end: usize,
    pub size: usize,
}

// The section after one that was found; there is one.
fn next_found(file: &[u8], limit: usize, found: SectionFound) -> SectionFound
    requires { MoreAfter limit file.now found }
    ensures { (result.before.count ≡ found.before.count + 1) × FoundHere limit file.now result }
{
    // the file is accepted, and has it
    let next = cbf_reader::next_section(file, found.after, limit)
        .unwrap()
        .unwrap();
    SectionFound {
        before: found.after,
        section: next.section,
        after: next.after,
    }
}

// The new file, which is as long as the result; writing says whether it goes to out. No section before the one that was
// found is chosen, and the chosen ones come in the order of the file.
fn spans_from(
    file: &[u8],
    limit: usize,
    chosen: &[Chosen],
    frames: &[i64],
    out: &mut [u8],
    writing: bool,
    found: SectionFound,
) -> usize
    requires { Rewritable limit file.now chosen.now frames.now found
        × (writing ≡ true → length (rewritten limit file.now chosen.now frames.now) ≤ length out.old) }
    ensures value { result ≡ length (rewritten limit file.now chosen.now frames.now) }
    ensures out_after { out.new ≡ part_in writing out.old 0 (rewritten limit file.now chosen.now frames.now) }
{
    let mut current = found;
    let mut first = 0;
    let mut from = 0;
    let mut at = 0;
    for choice in chosen {
        // no `for`: the sections are passed one by one, up to the chosen one
        while current.before.count + 1 < choice.number {
            current = next_found(file, limit, current);
        }
        at = parts::pass_span(
            file,
            from,
            current.section,
            choice.size,
            &frames[first..choice.end],
            out,
            writing,
            at,
        );
        from = current.section.to;
        first = choice.end;
    }
    parts::pass_rest(file, from, out, writing, at)
}

// Writes the new file: 15, or its length.
pub fn rewrite_file(
    file: &[u8],
    limit: usize,
    chosen: &[Chosen],
    frames: &[i64],
    out: &mut [u8],
    found: SectionFound,
) -> Result<usize, Refusal>
    requires { Rewritable limit file.now chosen.now frames.now found }
    ensures answer { outcome result ≡ room_for_file (rewritten limit file.now chosen.now frames.now) (length out.old) }
    ensures output { out.new ≡ written (room_for_file (rewritten limit file.now chosen.now frames.now) (length out.old))
        (rewritten limit file.now chosen.now frames.now) out.old }
{
    let length = spans_from(file, limit, chosen, frames, out, false, found);
    let room = out.len().min(FILE_LIMIT);
    if room < length {
        return Err(Reason::NoRoom.at(0));
    }
    spans_from(file, limit, chosen, frames, out, true, found);
    Ok(length)
}
