// The span of a section in house form: its head, the octets of a frame, and the closing boundary. Measured and written.
ghost use Rattle.std.specs.Prelude.{◌≡◌, List, ℕ, ◌+◌, ◌≤◌, length};
ghost use Rattle.std.proofs.lemmas.List.Edits.{sets};
ghost use Rattle.cbf_pixels.specs.Pixels.{pack_byte_offset};
ghost use Rattle.cbf_answers.specs.Limits.{file_limit};
ghost use Rattle.cbf_format.specs.House.{house};
ghost use Rattle.cbf_house.specs.Span.{Packed};

use crate::head;
use cbf_format::{CLOSING, CLOSING_LENGTH, Description};

// The length of the span of a section in house form, with a frame that packs to size octets.
pub fn span_length(d: Description, size: usize) -> usize
    requires { size ≤ file_limit }
    ensures { ((os : List ℕ) → size ≡ length os → result ≡ length (house d os)) × (result ≤ size + 1033) }
{
    // behind the octets: a line end and the closing boundary
    head::head_length(d, size as u64) + size + 2 + CLOSING_LENGTH
}

// Writes the span of a section in house form; the place after it.
pub fn put_span(out: &mut [u8], at: usize, d: Description, size: usize, frame: &[i64]) -> usize
    requires { Packed frame.now size × (at + length (house d (pack_byte_offset frame.now)) ≤ length out.old) }
    ensures value { result ≡ at + length (house d (pack_byte_offset frame.now)) }
    ensures out_after { out.new ≡ sets out.old at (house d (pack_byte_offset frame.now)) }
{
    let first = head::put_head(out, at, d, size as u64);
    let after = cbf_pack::write_octets(frame, out, first);
    let closing = cbf_write::put_text(out, after, b"\r\n");
    cbf_write::put_text(out, closing, &CLOSING)
}
