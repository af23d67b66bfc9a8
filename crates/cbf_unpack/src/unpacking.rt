// Unpacking all pixels of octets that are there as a whole, of either compression.
ghost use Rattle.std.specs.Prelude.{◌≡◌, ◌≤◌, length};
ghost use Rattle.cbf_answers.specs.Limits.{pixel_limit};
ghost use Rattle.cbf_answers.specs.Answers.{outcome};
ghost use Rattle.cbf_pixels.specs.PixelCalls.{unpack_outcome, unpack_output};
ghost use Rattle.cbf_pixels.specs.declared.Compression.TheVariants.{Uncompressed, ByteOffset};

use crate::{fill, uncompressed};
use cbf_answers::{PIXEL_LIMIT, Reason, Refusal};
use cbf_pixels::{Compression, ElementType};
use cbf_validate::validate;

fn unpack_uncompressed(
    kind: ElementType,
    octets: &[u8],
    count: usize,
    out: &mut [i64],
) -> Result<usize, Refusal>
    requires { count ≤ pixel_limit }
    ensures answer { outcome result ≡ unpack_outcome Uncompressed kind count octets.now
        (length out.old) }
    ensures output { out.new ≡ unpack_output Uncompressed kind count octets.now
        out.old }
{
    if octets.len() != cbf_pixels::octets_per(kind) * count {
        return Err(Reason::BadOctets.at(0));
    }
    if out.len() < count {
        return Err(Reason::NoRoom.at(0));
    }
    uncompressed::fill(kind, octets, count, out);
    Ok(count)
}

fn unpack_byte_offset(
    kind: ElementType,
    octets: &[u8],
    count: usize,
    out: &mut [i64],
) -> Result<usize, Refusal>
    requires { count ≤ pixel_limit }
    ensures answer { outcome result ≡ unpack_outcome ByteOffset kind count octets.now
        (length out.old) }
    ensures output { out.new ≡ unpack_output ByteOffset kind count octets.now
        out.old }
{
    if !validate::validate(kind, octets, count) {
        return Err(Reason::BadOctets.at(0));
    }
    if out.len() < count {
        return Err(Reason::NoRoom.at(0));
    }
    fill::fill(kind, octets, count, out);
    Ok(count)
}

// Unpacks count pixels from all of octets. The octets are known to be good before the first pixel is written.
#[tactic(auto, using(crate::proofs::UnpackingLaws::many_answer, crate::proofs::UnpackingLaws::many_output))]
pub fn unpack(
    compression: Compression,
    kind: ElementType,
    octets: &[u8],
    count: usize,
    out: &mut [i64],
) -> Result<usize, Refusal>
    ensures answer { outcome result ≡ unpack_outcome compression kind count octets.now
        (length out.old) }
    ensures output { out.new ≡ unpack_output compression kind count octets.now
        out.old }
{
    if PIXEL_LIMIT < count {
        return Err(Reason::BadOctets.at(0));
    }
    match compression {
        Compression::Uncompressed => unpack_uncompressed(kind, octets, count, out),
        Compression::ByteOffset => unpack_byte_offset(kind, octets, count, out),
    }
}
