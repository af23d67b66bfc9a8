// Uncompressed pixels from a text, whose octets come through a window.
ghost use Rattle.std.specs.Prelude.{◌≡◌, ◌++◌, ◌*◌, ◌≤◌, length, take, drop};
ghost use Rattle.cbf_answers.specs.Limits.{pixel_limit};
ghost use Rattle.cbf_pixels.specs.Uncompressed.{octets_per, unpack_uncompressed};
ghost use Rattle.cbf_pixels.specs.PixelCalls.{pixels_of};
ghost use Rattle.cbf_letters.specs.Octets.{GoodText, text_octets};

use crate::text_window::Window;
use cbf_pixels::{Compression, ElementType};

// Writes count uncompressed pixels from the text, whose octets are as many as the pixels take.
pub fn unpack_uncompressed(
    kind: ElementType,
    file: &[u8],
    from: usize,
    to: usize,
    size: usize,
    count: usize,
    out: &mut [i64],
)
    requires { (from ≤ to) × (to ≤ length file.now) × GoodText file.now from to
        × (size ≤ length (text_octets file.now from to)) × (size ≡ count * octets_per kind) × (count ≤ pixel_limit)
        × (count ≤ length out.old) }
    ensures { out.new ≡ pixels_of (unpack_uncompressed kind count
        (take size (text_octets file.now from to))) ++ drop count out.old }
{
    let width = cbf_pixels::octets_per(kind);
    let mut w = Window::new(from, size);
    let mut k = 0;
    // no `for`: how far a turn goes is known when it is over
    while k < count {
        w.refill(file, to);
        let n = (count - k).min(w.have / width);
        w.next = n * width;
        cbf_unpack::unpack(
            Compression::Uncompressed,
            kind,
            &w.octets[..w.next],
            n,
            &mut out[k..],
        )
        .unwrap();
        k += n;
    }
}
