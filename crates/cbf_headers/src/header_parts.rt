// A header with the lines that continue it.
ghost use Rattle.std.specs.Prelude.{◌<◌};
ghost use Rattle.cbf_headers.specs.HeaderParts.{HeadersHere, HeaderParts};

use cbf_lines::{line, text};

// The header's name, its value with the lines that continue it, and where the next header or the empty line is.
#[derive(Clone, Copy)]
pub struct Parts<'a> {
    pub name: &'a [u8],
    pub value: &'a [u8],
    pub next: usize,
}

// The parts of the header that starts at from, before the empty line at empty.
pub fn header_parts(file: &[u8], from: usize, empty: usize) -> Parts
    requires { HeadersHere file.now from empty × (from < empty) }
    ensures { (h : HeadersHere file.now from empty)
        → HeaderParts file.now from empty h result.name.now result.value.now result.next }
{
    let colon = text::after(file, from, empty, |b| b != b':');
    let mut to = text::after_text(file, colon, empty);
    let mut next = line::after_end(file, to);
    // no `for`: how far a turn goes is known when it is over
    while next < empty && text::blank(file[next]) {
        to = text::after_text(file, next, empty);
        next = line::after_end(file, to);
    }
    Parts {
        name: &file[from..colon],
        value: &file[colon + 1..to],
        next,
    }
}
