// The listing of a file, and the line of a refusal.
ghost use Rattle.std.specs.Prelude.{◌≡◌, length};
ghost use Rattle.cbf_walk.specs.Reading.{refused};
ghost use Rattle.cbf_answers.specs.Answers.{outcome};
ghost use Rattle.cbf_format.specs.Listing.{listing};
ghost use Rattle.cbf_answers.specs.Rooms.{room_for, room_output};
ghost use Rattle.cbf_format.specs.ListCalls.{list_outcome, shown, list_output};
ghost use Rattle.cbf_format.specs.Files as F;

use crate::lines;
use cbf_answers::{Reason, Refusal};

// Writes the listing of the file, whose text lines have at most limit characters, to out: reading's refusal, 15, or
// the listing's length.
pub fn list(file: &[u8], limit: usize, out: &mut [u8]) -> Result<usize, Refusal>
    ensures answer { outcome result ≡ list_outcome (F.read limit file.now) (length out.old) }
    ensures output { out.new ≡ list_output (F.read limit file.now) out.old }
{
    let needed = lines::lines(file, limit, out, false)?;
    if out.len() < needed {
        return Err(Reason::NoRoom.at(0));
    }
    lines::lines(file, limit, out, true)
}

// Writes the line of a refusal to out: 15, or the line's length. It is written by the pieces that write the listing,
// and not by Display: what is asked of it are its bytes, in lent memory that a refusal leaves as it was.
pub fn refusal_line(refusal: Refusal, out: &mut [u8]) -> Result<usize, Refusal>
    ensures answer { outcome result ≡ room_for (listing (refused refusal.number refusal.place))
        (length out.old) }
    ensures output { out.new
        ≡ room_output (listing (refused refusal.number refusal.place)) out.old }
{
    let number = u64::from(refusal.number);
    let place = refusal.place as u64;
    let n = 13 + cbf_write::digit_count(number) + cbf_write::digit_count(place);
    if out.len() < n {
        return Err(Reason::NoRoom.at(0));
    }
    let after_word = cbf_write::put_text(out, 0, b"refused ");
    let after_number = cbf_write::put_number(out, after_word, number);
    let after_at = cbf_write::put_text(out, after_number, b" at ");
    let after_place = cbf_write::put_number(out, after_at, place);
    cbf_write::put_text(out, after_place, b"\n");
    Ok(n)
}

// Writes what is shown of a file: its listing, or the line of the refusal that list gives.
pub fn listing_or_refusal(file: &[u8], limit: usize, out: &mut [u8]) -> Result<usize, Refusal>
    ensures answer { outcome result ≡ room_for (shown (F.read limit file.now)
        (length out.old)) (length out.old) }
    ensures output { out.new
        ≡ room_output (shown (F.read limit file.now) (length out.old)) out.old }
{
    match list(file, limit, out) {
        Ok(n) => Ok(n),
        Err(refusal) => refusal_line(refusal, out),
    }
}
