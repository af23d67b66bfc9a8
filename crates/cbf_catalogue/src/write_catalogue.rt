// The catalogue of a file.
ghost use Rattle.std.specs.Prelude.{◌≡◌, ◌≤◌, length};
ghost use Rattle.std.proofs.lemmas.List.Edits.{sets};
ghost use Rattle.cbf_answers.specs.Answers.{outcome};
ghost use Rattle.cbf_catalogue.specs.WriteCatalogue.{heading};
ghost use Rattle.cbf_format.specs.CatalogueCalls.{catalogue_outcome, catalogue_output};
ghost use Rattle.cbf_format.specs.Files as F;

use crate::{entries, little};
use cbf_answers::{Reason, Refusal};

// Writes what stands before the entries.
fn put_heading(out: &mut [u8], count: usize)
    requires { 8 ≤ length out.old }
    ensures { out.new ≡ sets out.old 0 (heading count) }
{
    let after_version = cbf_write::put_text(out, 0, b"FRC\x00\x01\x00");
    little::put_little(out, after_version, 2, count as u64);
}

// Writes the catalogue of the file, whose text lines have at most limit characters, to out: reading's refusal, 17,
// 15, or the catalogue's length.
pub fn catalogue(file: &[u8], limit: usize, out: &mut [u8]) -> Result<usize, Refusal>
    ensures answer { outcome result ≡ catalogue_outcome (F.read limit file.now)
        (length out.old) }
    ensures output { out.new ≡ catalogue_output (F.read limit file.now) out.old }
{
    let count = entries::entries(file, limit, out, false)?;
    let needed = 8 + 64 * count;
    if out.len() < needed {
        return Err(Reason::NoRoom.at(0));
    }
    put_heading(out, count);
    entries::entries(file, limit, out, true)?;
    Ok(needed)
}
