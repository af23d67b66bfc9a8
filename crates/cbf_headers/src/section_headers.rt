// The headers of a section: pass over their lines, then judge them.
ghost use Rattle.std.specs.Prelude.{◌≡◌, ◌≤◌, length, drop};
ghost use Rattle.cbf_answers.specs.Limits.{file_limit};
ghost use Rattle.cbf_format.specs.Descriptions.{headers as headers_of};
ghost use Rattle.cbf_headers.specs.SectionHeaders.{headers_read_at};

use crate::describe::describe;
use crate::headers::header_end;
use crate::judge::judge_headers;
use cbf_answers::Reason;
use cbf_format::{Description, Stop};

// What the headers say and where their empty line ends.
#[derive(Clone, Copy, Debug, PartialEq, Eq)]
pub struct Headers {
    pub description: Description,
    pub next: usize,
}

// The headers that start at at.
pub fn section_headers(file: &[u8], at: usize, limit: usize) -> Result<Headers, Stop>
    requires { (at ≤ length file.now) × (length file.now ≤ file_limit) }
    ensures { result ≡ headers_read_at at (headers_of limit file_limit (drop at file.now)) }
{
    let end = header_end(file, at, limit)?;
    let values = judge_headers(file, at, end.empty).map_err(|place| Reason::BadHeader.at(place))?;
    let description = describe(values).map_err(|reason| reason.at(end.empty))?;
    Ok(Headers {
        description,
        next: end.next,
    })
}
