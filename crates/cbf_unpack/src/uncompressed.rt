// Uncompressed pixels: little-endian numbers of one, two or four octets each.
ghost use Rattle.std.specs.Prelude.{◌≡◌, ◌++◌, ℕ, ◌+◌, ◌*◌, ◌≤◌, length, take, drop};
ghost use Rattle.cbf_pixels.specs.Octets.{number, half as half_of};
ghost use Rattle.cbf_pixels.specs.Uncompressed.{octets_per, is_signed, pixel_of, unpack_uncompressed};
ghost use Rattle.cbf_pixels.specs.PixelCalls.{pixels_of};
ghost use Rattle.cbf_octets.specs.Difference.{Halved};
ghost use Rattle.cbf_unpack.specs.Uncompressed.{Width};

use cbf_octets::{difference, octets};
use cbf_pixels::ElementType;

fn is_signed(kind: ElementType) -> bool
    ensures { result ≡ is_signed kind }
{
    matches!(kind, ElementType::S8 | ElementType::S16 | ElementType::S32)
}

// The pixel with the number n, in a signed type or not. half is half of the width's numbers.
fn pixel(n: u64, half: u64, signed: bool) -> i64
    requires { Halved half n }
    ensures { (k : ℕ) → half ≡ half_of k → result ≡ pixel_of signed k n }
{
    if signed {
        difference::extended(n, half)
    } else {
        n as i64
    }
}

// The pixel whose octets start at i. width and signed do not change in a loop over pixels, so that the compiler makes
// a loop of each of their values.
fn pixel_at(octets: &[u8], i: usize, width: usize, signed: bool) -> i64
    requires { Width width × (i + width ≤ length octets.now) }
    ensures { result ≡ pixel_of signed width (number (take width (drop i octets.now))) }
{
    match width {
        1 => pixel(u64::from(octets[i]), 128, signed),
        2 => pixel(octets::le2(octets, i), 32768, signed),
        _ => pixel(octets::le4(octets, i), 2147483648, signed),
    }
}

// The pixels, written to the front of out.
pub fn fill(kind: ElementType, octets: &[u8], count: usize, out: &mut [i64])
    requires { (length octets.now ≡ octets_per kind * count) × (count ≤ length out.old) }
    ensures { out.new ≡ pixels_of (unpack_uncompressed kind count octets.now)
        ++ drop count out.old }
{
    let width = cbf_pixels::octets_per(kind);
    let signed = is_signed(kind);
    for k in 0..count {
        out[k] = pixel_at(octets, width * k, width, signed);
    }
}
