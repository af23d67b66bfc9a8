// Writing where many differences take more than one octet: one store of eight octets for each, without a branch. What
// a store writes beyond the octets of its difference is written over by the next ones.
ghost use Rattle.std.specs.Prelude.{◌≡◌, true, ◌+◌, ◌<◌, ◌≤◌, ◌^◌, length, pos, nat_abs, ◌+ℤ◌};
ghost use Rattle.cbf_pixels.specs.Pixels.{pack_difference};
ghost use Rattle.cbf_measure.specs.Measure.{over};
ghost use Rattle.cbf_pack.specs.Write.{Writable, WroteOver};
ghost use Rattle.cbf_pack.specs.Dense.{packing_forms, PutOver};

use crate::write;
use cbf_measure::{measure, range};
use cbf_octets::octets;

// Whether the last part took more than two octets a pixel, and at least eight pixels are behind the next n of those
// left.
pub fn dense(used: usize, n: usize, left: usize) -> bool
    requires { n ≤ 128 }
    ensures { result ≡ true → n + 7 < left }
{
    256 < used && n + 7 < left
}

// 0 where a width holds the difference d, and 1 where not.
fn beyond(d: i64, half: u32) -> usize
    ensures { result ≡ over d half }
{
    usize::from(!measure::narrow(d, half))
}

// A difference, made positive: its low octets stay.
fn raised(d: i64) -> u64
    requires { nat_abs d < 2147483648 }
    ensures { (pos result ≡ d +ℤ pos 4294967296) × (result < 2 ^ 33) }
{
    (d + 4294967296) as u64
}

// How differences of one octet, of three and of seven are stored: by how many bits the number is moved up, the escapes
// before it, and the length. A static array of structs in its place takes two instructions a pixel more.
#[derive(Clone, Copy)]
pub struct Forms {
    pub shift: [u64; 3],
    pub escapes: [u64; 3],
    pub length: [usize; 3],
}

// The octets of a difference, and at most seven others behind them; the answer is where the next ones go.
fn put_over(out: &mut [u8], at: usize, d: i64, forms: &Forms) -> usize
    requires { (forms.now ≡ packing_forms) × (at + 8 ≤ length out.old) × (at + length (pack_difference d)
        ≤ length out.old) }
    ensures { PutOver d out.old at out.new result }
{
    if !measure::narrow(d, 2147483648) {
        write::put_15(out, at, range::bits_of_far(d));
        return at + 15;
    }
    // as many of the widths do not hold it
    let c = beyond(d, 128) + beyond(d, 32768);
    octets::put::<8>(out, at, (raised(d) << forms.shift[c]) + forms.escapes[c]);
    at + forms.length[c]
}

// The first n of the pixels, and at least seven are behind them.
pub fn write_dense(
    pixels: &[i64],
    n: usize,
    last: i64,
    out: &mut [u8],
    at: usize,
    forms: &Forms,
) -> usize
    requires { (forms.now ≡ packing_forms) × Writable pixels.now 0 (n + 7) last out.old at }
    ensures { WroteOver pixels.now 0 n last out.old at out.new result 7 }
{
    let mut before = last;
    let mut next = at;
    for j in 0..n {
        let z = pixels[j];
        next = put_over(out, next, z - before, forms);
        before = z;
    }
    next
}
