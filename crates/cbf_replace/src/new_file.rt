// The new file with the frame of one section replaced.
ghost use Rattle.std.specs.Prelude.{◌≡◌, ◌≤◌, length};
ghost use Rattle.cbf_pixels.specs.Pixels.{pack_byte_offset};
ghost use Rattle.cbf_answers.specs.Answers.{outcome, written};
ghost use Rattle.cbf_answers.specs.Limits.{pixel_limit};
ghost use Rattle.cbf_format.specs.ReplaceCalls.{replace_fitting};
ghost use Rattle.cbf_replace.specs.NewFile.{one_replaced, SectionThere};

use cbf_answers::{Reason, Refusal};
use cbf_format::Description;
use cbf_reader::SectionFound;
use cbf_rewrite::Chosen;

// Replaces the frame of the section with this number, which was found: 14, 15, or the length of the new file, which is
// written.
pub fn replace_section(
    file: &[u8],
    limit: usize,
    number: usize,
    d: Description,
    frame: &[i64],
    out: &mut [u8],
    found: SectionFound,
) -> Result<usize, Refusal>
    requires { SectionThere limit file.now number found × (d.elements ≤ pixel_limit) }
    ensures answer { outcome result ≡ replace_fitting d frame.now
        (one_replaced limit file.now number (pack_byte_offset frame.now))
        (length out.old) }
    ensures output { out.new ≡ written (replace_fitting d frame.now
        (one_replaced limit file.now number (pack_byte_offset frame.now))
        (length out.old))
        (one_replaced limit file.now number (pack_byte_offset frame.now)) out.old }
{
    if frame.len() != d.elements as usize {
        return Err(Reason::BadPixels.at(0));
    }
    let size = cbf_measure::measure::octet_count(d.kind, frame).ok_or(Reason::BadPixels.at(0))?;
    let chosen = [Chosen {
        number,
        end: frame.len(),
        size,
    }];
    cbf_rewrite::rewrite_file(file, limit, &chosen, frame, out, found)
}
