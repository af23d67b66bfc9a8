// Packing pixels by the byte-offset rule.
ghost use Rattle.std.specs.Prelude.{◌≡◌, ◌≤◌, length};
ghost use Rattle.cbf_answers.specs.Limits.{pixel_limit};
ghost use Rattle.cbf_answers.specs.Answers.{outcome};
ghost use Rattle.cbf_pixels.specs.PixelCalls.{pack_outcome, pack_output};

use crate::write;
use cbf_answers::{PIXEL_LIMIT, Reason, Refusal};
use cbf_measure::measure;
use cbf_pixels::ElementType;

// Packs pixels of which there are at most the pixel limit: how many octets they take is known before the first is
// written.
fn pack_counted(kind: ElementType, pixels: &[i64], out: &mut [u8]) -> Result<usize, Refusal>
    requires { length pixels.now ≤ pixel_limit }
    ensures answer { outcome result ≡ pack_outcome kind pixels.now (length out.old) }
    ensures output { out.new ≡ pack_output kind pixels.now out.old }
{
    let Some(n) = measure::octet_count(kind, pixels) else {
        return Err(Reason::BadPixels.at(0));
    };
    if out.len() < n {
        return Err(Reason::NoRoom.at(0));
    }
    write::write_octets(pixels, out, 0);
    Ok(n)
}

// Packs pixels by the byte-offset rule. Where there is room for the most octets that pixels can take, they are not
// counted.
#[tactic(auto, using(crate::proofs::PackingLaws::too_many))]
pub fn pack(kind: ElementType, pixels: &[i64], out: &mut [u8]) -> Result<usize, Refusal>
    ensures answer { outcome result ≡ pack_outcome kind pixels.now (length out.old) }
    ensures output { out.new ≡ pack_output kind pixels.now out.old }
{
    if PIXEL_LIMIT < pixels.len() {
        return Err(Reason::BadPixels.at(0));
    }
    if out.len() < 15 * pixels.len() || !measure::all_typed(kind, pixels) {
        return pack_counted(kind, pixels, out);
    }
    Ok(write::write_octets(pixels, out, 0))
}
