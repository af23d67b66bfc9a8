// The head of a section in house form: its opening boundary, headers, empty line and marker, as pieces that are
// measured and written.
ghost use Rattle.std.specs.Prelude.{◌≡◌, ◌+◌, ◌≤◌, length};
ghost use Rattle.std.proofs.lemmas.List.Edits.{sets};
ghost use Rattle.cbf_format.specs.Values.{type_words};
ghost use Rattle.cbf_format.specs.Descriptions.{optional};
ghost use Rattle.cbf_house.specs.Head.{head_text, line_text, text_of, texts_of};

use cbf_format::{Description, OPENING};
use cbf_pixels::ElementType;

// A text, or a line with a name and a number.
#[derive(Clone, Copy)]
enum Piece {
    Text(&'static [u8]),
    Line(&'static [u8], u64),
}

impl Piece {
    // The length of the piece, which is far from the greatest number.
    fn length(self) -> usize
        requires { length (text_of self) ≤ 1000 }
        ensures { result ≡ length (text_of self) }
    {
        match self {
            Piece::Text(text) => text.len(),
            Piece::Line(name, n) => name.len() + cbf_write::digit_count(n) + 2,
        }
    }

    // Writes the piece; the place after it.
    fn put(self, out: &mut [u8], at: usize) -> usize
        requires { at + length (text_of self) ≤ length out.old }
        ensures value { result ≡ at + length (text_of self) }
        ensures out_after { out.new ≡ sets out.old at (text_of self) }
    {
        match self {
            Piece::Text(text) => cbf_write::put_text(out, at, text),
            Piece::Line(name, n) => {
                let name_end = cbf_write::put_text(out, at, name);
                let number_end = cbf_write::put_number(out, name_end, n);
                cbf_write::put_text(out, number_end, b"\r\n")
            }
        }
    }
}

// The line of an ID or a dimension, which 0 does not have.
fn optional_line(name: &'static [u8], n: u64) -> Piece
    ensures { text_of result ≡ line_text name.now (optional n) }
{
    if n == 0 {
        Piece::Text(b"")
    } else {
        Piece::Line(name, n)
    }
}

// The words of an element type.
fn words(kind: ElementType) -> &'static [u8]
    ensures { result.now ≡ type_words kind }
{
    match kind {
        ElementType::U8 => b"unsigned 8-bit integer",
        ElementType::S8 => b"signed 8-bit integer",
        ElementType::U16 => b"unsigned 16-bit integer",
        ElementType::S16 => b"signed 16-bit integer",
        ElementType::U32 => b"unsigned 32-bit integer",
        ElementType::S32 => b"signed 32-bit integer",
    }
}

// The head of a section with size octets.
fn head(d: Description, size: u64) -> [Piece; 12]
    ensures text { texts_of result ≡ head_text d size }
    ensures count { length result ≡ 12 }
{
    [
        Piece::Text(&OPENING),
        Piece::Text(
            b"\r\nContent-Type: application/octet-stream;\r\n     conversions=\"x-CBF_BYTE_OFFSET\"\r\nContent-Transfer-Encoding: BINARY\r\n",
        ),
        Piece::Line(b"X-Binary-Size: ", size),
        optional_line(b"X-Binary-ID: ", d.id),
        Piece::Text(b"X-Binary-Element-Type: \""),
        Piece::Text(words(d.kind)),
        Piece::Text(b"\"\r\nX-Binary-Element-Byte-Order: LITTLE_ENDIAN\r\n"),
        Piece::Line(b"X-Binary-Number-of-Elements: ", d.elements),
        optional_line(b"X-Binary-Size-Fastest-Dimension: ", d.fastest),
        optional_line(b"X-Binary-Size-Second-Dimension: ", d.second),
        optional_line(b"X-Binary-Size-Third-Dimension: ", d.third),
        Piece::Text(b"\r\n\x0c\x1a\x04\xd5"),
    ]
}

// The length of the head of a section with size octets.
pub fn head_length(d: Description, size: u64) -> usize
    ensures { (result ≡ length (head_text d size)) × (result ≤ 1000) }
{
    let mut length = 0;
    for piece in head(d, size) {
        length += piece.length();
    }
    length
}

// Writes the head of a section with size octets; the place after it.
pub fn put_head(out: &mut [u8], at: usize, d: Description, size: u64) -> usize
    requires { at + length (head_text d size) ≤ length out.old }
    ensures value { result ≡ at + length (head_text d size) }
    ensures out_after { out.new ≡ sets out.old at (head_text d size) }
{
    let mut end = at;
    for piece in head(d, size) {
        end = piece.put(out, end);
    }
    end
}
