// The header lines of a section, up to the empty line.
ghost use Rattle.std.specs.Prelude.{◌≡◌, true, ◌≤◌, length, drop};
ghost use Rattle.cbf_answers.specs.Limits.{file_limit};
ghost use Rattle.cbf_format.specs.Headers.{header_lines};
ghost use Rattle.cbf_headers.specs.Headers.{headers_at};

use cbf_format::Stop;
use cbf_lines::line;

// The end of the headers: the empty line's place and the place after it.
#[derive(Clone, Copy)]
pub struct HeaderEnd {
    pub empty: usize,
    pub next: usize,
}

// Passes over the header lines that start at at.
pub fn header_end(file: &[u8], at: usize, limit: usize) -> Result<HeaderEnd, Stop>
    requires { (at ≤ length file.now) × (length file.now ≤ file_limit) }
    ensures { result ≡ headers_at at at (header_lines limit file_limit true 0 (drop at file.now)) }
{
    let mut next = at;
    // no `for`: how far a turn goes is known when it is over
    while next < file.len() {
        let l = line::header_line(file, next, limit, next == at)?;
        if l.to == next {
            return Ok(HeaderEnd {
                empty: next,
                next: l.next,
            });
        }
        next = l.next;
    }
    Err(Stop::CutOff)
}
