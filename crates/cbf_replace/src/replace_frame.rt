// The call.
ghost use Rattle.std.specs.Prelude.{◌≡◌, length};
ghost use Rattle.cbf_answers.specs.Answers.{outcome};
ghost use Rattle.cbf_format.specs.ReplaceCalls.{replace_outcome, replace_output};
ghost use Rattle.cbf_format.specs.Files as F;

use crate::new_file;
use cbf_answers::{Reason, Refusal};
use cbf_format::Encoding;

// Writes the file with the frame of the section with this number replaced: reading's refusal, 12, 18, 14, 15, or the
// length of the new file. Text lines have at most limit characters.
pub fn replace(
    file: &[u8],
    limit: usize,
    number: usize,
    frame: &[i64],
    out: &mut [u8],
) -> Result<usize, Refusal>
    ensures answer { outcome result ≡ replace_outcome file.now (F.read limit file.now) number
        frame.now (length out.old) }
    ensures output { out.new
        ≡ replace_output file.now (F.read limit file.now) number frame.now
        out.old }
{
    let found = cbf_reader::section_place(file, limit, number)?;
    let d = found.section.description;
    match d.encoding {
        Encoding::Binary => new_file::replace_section(file, limit, number, d, frame, out, found),
        Encoding::Base64 => Err(Reason::NotBinary.at(0)),
    }
}
