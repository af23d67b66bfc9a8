// The pixels of a text, of either compression.
ghost use Rattle.std.specs.Prelude.{◌≡◌, ◌*◌, ◌≤◌, length, take};
ghost use Rattle.cbf_answers.specs.Limits.{pixel_limit};
ghost use Rattle.cbf_pixels.specs.Uncompressed.{octets_per};
ghost use Rattle.cbf_answers.specs.Answers.{outcome};
ghost use Rattle.cbf_pixels.specs.PixelCalls.{unpack_outcome, unpack_output};
ghost use Rattle.cbf_pixels.specs.declared.Compression.TheVariants.{Uncompressed};
ghost use Rattle.cbf_letters.specs.Octets.{GoodText, text_octets};

use crate::byte_offset_text::{Fill, Validate, pass};
use crate::uncompressed_text;
use cbf_answers::{Reason, Refusal};
use cbf_pixels::{Compression, ElementType};

// Unpacks count pixels from the text, which stands for size octets; as cbf_pixels::unpack does from octets. Octets
// that do not unpack are known before the first pixel is written; an uncompressed section has none.
pub fn unpack(
    compression: Compression,
    kind: ElementType,
    file: &[u8],
    from: usize,
    to: usize,
    size: usize,
    count: usize,
    out: &mut [i64],
) -> Result<usize, Refusal>
    requires { (from ≤ to) × (to ≤ length file.now) × GoodText file.now from to
        × (size ≤ length (text_octets file.now from to)) × (count ≤ pixel_limit) × (compression ≡ Uncompressed
        → size ≡ count * octets_per kind) }
    ensures answer { outcome result ≡ unpack_outcome compression kind count
        (take size (text_octets file.now from to)) (length out.old) }
    ensures output { out.new ≡ unpack_output compression kind count
        (take size (text_octets file.now from to)) out.old }
{
    match compression {
        Compression::Uncompressed => {
            if out.len() < count {
                return Err(Reason::NoRoom.at(0));
            }
            uncompressed_text::unpack_uncompressed(kind, file, from, to, size, count, out);
        }
        Compression::ByteOffset => {
            if !pass::<Validate>(kind, file, from, to, size, count, out) {
                return Err(Reason::BadOctets.at(0));
            }
            if out.len() < count {
                return Err(Reason::NoRoom.at(0));
            }
            pass::<Fill>(kind, file, from, to, size, count, out);
        }
    }
    Ok(count)
}
