// The frame of a section: its pixels, unpacked.
ghost use Rattle.std.specs.Prelude.{◌≡◌, length};
ghost use Rattle.cbf_format.specs.Listing.{Placed};
ghost use Rattle.cbf_answers.specs.Answers.{outcome};
ghost use Rattle.cbf_pixels.specs.PixelCalls.{unpack_outcome, unpack_output};
ghost use Rattle.cbf_format.specs.SectionCalls.{placed_at, frame_outcome, frame_output};
ghost use Rattle.cbf_sections.specs.Frame.{FrameOf};
ghost use Rattle.cbf_format.specs.Files as F;

use cbf_answers::{Reason, Refusal};
use cbf_format::{CLOSING_LENGTH, Encoding, Section};

// 13 is at the section's first octet.
fn placed(answer: Result<usize, Refusal>, first: usize) -> Result<usize, Refusal>
    ensures { outcome result ≡ placed_at first (outcome answer) }
{
    match answer {
        Err(r) if r.number == u32::from(Reason::BadOctets) => Err(Reason::BadOctets.at(first)),
        _ => answer,
    }
}

// Unpacks the octets of a section, from the file or from the text that they stand in. 13 is at 0.
fn unpack_octets(file: &[u8], s: Section, out: &mut [i64]) -> Result<usize, Refusal>
    requires { (p : Placed) × FrameOf file.now p s }
    ensures answer { (p : Placed) → FrameOf file.now p s → outcome result
        ≡ unpack_outcome s.description.compression s.description.kind s.description.elements
        p.section.octets (length out.old) }
    ensures output { (p : Placed) → FrameOf file.now p s → out.new
        ≡ unpack_output s.description.compression s.description.kind s.description.elements
        p.section.octets out.old }
{
    let d = s.description;
    let size = d.size as usize;
    let count = d.elements as usize;
    match d.encoding {
        Encoding::Binary => {
            let octets = &file[s.first..s.first + size];
            cbf_unpack::unpack(d.compression, d.kind, octets, count, out)
        }
        Encoding::Base64 => cbf_text::unpack(
            d.compression,
            d.kind,
            file,
            s.first,
            s.to - CLOSING_LENGTH,
            size,
            count,
            out,
        ),
    }
}

// Unpacks the frame of the section with this number: reading's refusal, 12, 13, 15, or the number of its pixels.
pub fn unpack(file: &[u8], limit: usize, number: usize, out: &mut [i64]) -> Result<usize, Refusal>
    ensures answer { outcome result ≡ frame_outcome (F.read limit file.now) number
        (length out.old) }
    ensures output { out.new ≡ frame_output (F.read limit file.now) number
        out.old }
{
    let s = cbf_reader::numbered_section(file, limit, number)?;
    placed(unpack_octets(file, s, out), s.first)
}
