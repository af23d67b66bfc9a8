// The values of the known headers, over the headers in file order.
ghost use Rattle.std.specs.Prelude.{◌≡◌, [], IfOk};
ghost use Rattle.cbf_format.specs.Headers.{group};
ghost use Rattle.cbf_format.specs.Descriptions.{judge as judge_of};
ghost use Rattle.cbf_headers.specs.Found.{InRange};
ghost use Rattle.cbf_headers.specs.HeaderParts.{HeadersHere};
ghost use Rattle.cbf_headers.specs.Judge.{judged_at};

use crate::found::Found;
use crate::header_parts;
use cbf_values::{header, known_value};

// The values, or the place of a header that is refused, since it is repeated or has a bad value.
pub fn judge_headers(file: &[u8], from: usize, empty: usize) -> Result<Found, usize>
    requires { HeadersHere file.now from empty }
    ensures judged { (h : HeadersHere file.now from empty) → result
        ≡ judged_at h.at (judge_of (group h.lines).headers []) }
    ensures range { IfOk result InRange }
{
    let mut values = Found::nothing();
    let mut at = from;
    // no `for`: how far a turn goes is known when it is over
    while at < empty {
        let header = header_parts::header_parts(file, at, empty);
        if let Some(known) = header::known(header.name) {
            if values.get(known).is_some() {
                return Err(at);
            }
            let value = known_value::known_value(header.value, known).ok_or(at)?;
            values = values.with(known, value);
        }
        at = header.next;
    }
    Ok(values)
}
