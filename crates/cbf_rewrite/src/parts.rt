// The parts of a new file: what is copied from the old one, and the span of a section in house form. Measured and
// written by the same functions.
ghost use Rattle.std.specs.Prelude.{◌≡◌, ◌+◌, ◌≤◌, length, drop};
ghost use Rattle.cbf_pixels.specs.Pixels.{pack_byte_offset};
ghost use Rattle.cbf_answers.specs.Limits.{file_limit};
ghost use Rattle.cbf_rewrite.specs.Parts.{part_in, through_span, PartFits, SpanAhead};

use cbf_format::Section;

// The file from a place up to the span of a section, and that span in house form with a frame that packs to size
// octets: measured, or written to out from at on. The place after it.
pub fn pass_span(
    file: &[u8],
    from: usize,
    s: Section,
    size: usize,
    frame: &[i64],
    out: &mut [u8],
    writing: bool,
    at: usize,
) -> usize
    requires { SpanAhead file.now from s size frame.now
        × PartFits writing out.old at (through_span file.now from s (pack_byte_offset frame.now)) }
    ensures value { result ≡ at + length (through_span file.now from s (pack_byte_offset frame.now)) }
    ensures out_after { out.new ≡ part_in writing out.old at (through_span file.now from s
        (pack_byte_offset frame.now)) }
{
    if writing {
        let boundary = cbf_write::put_text(out, at, &file[from..s.from]);
        cbf_house::put_span(out, boundary, s.description, size, frame)
    } else {
        at + (s.from - from) + cbf_house::span_length(s.description, size)
    }
}

// The file from a place on: measured, or copied to out from at on. The place after it.
pub fn pass_rest(file: &[u8], from: usize, out: &mut [u8], writing: bool, at: usize) -> usize
    requires { (from ≤ length file.now) × (length file.now ≤ file_limit)
        × PartFits writing out.old at (drop from file.now) }
    ensures value { result ≡ at + length (drop from file.now) }
    ensures out_after { out.new ≡ part_in writing out.old at (drop from file.now) }
{
    if writing {
        cbf_write::put_text(out, at, &file[from..])
    } else {
        at + (file.len() - from)
    }
}
