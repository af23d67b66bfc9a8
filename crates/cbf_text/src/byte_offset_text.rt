// Byte-offset pixels from a text.
ghost use Rattle.std.specs.Prelude.{◌≡◌, Bool, true, false, ◌+◌, ◌≤◌, length, take};
ghost use Rattle.cbf_pixels.specs.Pixels.{within, least, greatest, unpack_byte_offset};
ghost use Rattle.cbf_pixels.specs.PixelCalls.{is_some};
ghost use Rattle.cbf_unpack.specs.Fill.{Fillable};
ghost use Rattle.cbf_letters.specs.Octets.{GoodText, text_octets};
ghost use Rattle.cbf_text.specs.ByteOffsetText.{PartSays, pass_output};

use crate::text_window::Window;
use cbf_octets::{Last, Part};
use cbf_pixels::ElementType;

// What a pass does with the pixels of the octets that are there: it validates them, or writes them to out from k on.
pub trait Step {
    ghost writing: { Bool };

    fn part(
        kind: ElementType,
        octets: &[u8],
        ended: bool,
        s: Last,
        count: usize,
        out: &mut [i64],
        k: usize,
    ) -> Option<Part>
        requires { (writing ≡ false → within (least kind) (greatest kind) s.pixel ≡ true)
            × (s.next ≤ length octets.now) × (writing ≡ true → Fillable octets.now ended s.pixel s.next count
            × (k + count ≤ length out.old)) }
        ensures { PartSays writing kind octets.now ended s.pixel s.next count k
            out.old out.new result };
}

// The first pass.
pub struct Validate;

impl Step for Validate {
    ghost writing = { false };

    fn part(
        kind: ElementType,
        octets: &[u8],
        ended: bool,
        s: Last,
        count: usize,
        _out: &mut [i64],
        _k: usize,
    ) -> Option<Part> {
        cbf_validate::validate::validate_part(kind, octets, ended, s, count)
    }
}

// The second pass.
pub struct Fill;

impl Step for Fill {
    ghost writing = { true };

    fn part(
        _kind: ElementType,
        octets: &[u8],
        ended: bool,
        s: Last,
        count: usize,
        out: &mut [i64],
        k: usize,
    ) -> Option<Part> {
        Some(cbf_unpack::fill_part(octets, ended, s, count, out, k))
    }
}

// Whether the text's octets unpack to count pixels, which a pass validates or writes to out. One loop for both, so
// that what is written is what was validated.
pub fn pass<S: Step>(
    kind: ElementType,
    file: &[u8],
    from: usize,
    to: usize,
    size: usize,
    count: usize,
    out: &mut [i64],
) -> bool
    requires { (from ≤ to) × (to ≤ length file.now) × GoodText file.now from to
        × (size ≤ length (text_octets file.now from to)) × (S.writing ≡ true → (count ≤ length out.old)
        × (is_some (unpack_byte_offset kind count (take size (text_octets file.now from to))) ≡ true)) }
    ensures value { result ≡ is_some (unpack_byte_offset kind count (take size (text_octets file.now from to))) }
    ensures out_after { out.new ≡ pass_output S.writing (unpack_byte_offset kind count
        (take size (text_octets file.now from to))) count out.old }
{
    let mut w = Window::new(from, size);
    let mut pixel = 0;
    let mut k = 0;
    // no `for`: how far a turn goes is known when it is over
    while k < count {
        w.refill(file, to);
        let s = Last { pixel, next: 0 };
        let Some(p) = S::part(kind, &w.octets[..w.have], w.left == 0, s, count - k, out, k) else {
            return false;
        };
        pixel = p.last.pixel;
        w.next = p.last.next;
        k += p.count;
    }
    w.left == 0 && w.next == w.have
}
