// The second pass of unpacking: pixels are written from octets that are known to unpack, so that nothing is tested.
ghost use Rattle.std.specs.Prelude.{◌≡◌, true, ◌++◌, ◌+◌, ◌*◌, ◌%◌, ◌<◌, ◌≤◌, length, drop};
ghost use Rattle.cbf_pixels.specs.Pixels.{unpack_byte_offset};
ghost use Rattle.cbf_pixels.specs.PixelCalls.{is_some, pixels_of};
ghost use Rattle.cbf_octets.specs.Plain.{Plain};
ghost use Rattle.cbf_unpack.specs.Fill.{Unpacks, Filled, Fillable, FilledPart};

use cbf_octets::{Last, Part, difference, plain};
use cbf_pixels::ElementType;

// 32 pixels of plain octets, from the octet i on, written from k on.
fn fill_block(octets: &[u8], i: usize, pixel: i64, out: &mut [i64], k: usize) -> i64
    requires { Unpacks octets.now pixel i 32 0 × (i + 32 ≤ length octets.now) × Plain octets.now i 32
        × (k + 32 ≤ length out.old) }
    ensures { Filled octets.now pixel i 32 result (i + 32) k out.old out.new }
{
    let mut z = pixel;
    for j in 0..32 {
        z += difference::extended(u64::from(octets[i + j]), 128);
        out[k + j] = z;
    }
    z
}

// n pixels of plain octets.
fn fill_run(octets: &[u8], i: usize, n: usize, pixel: i64, out: &mut [i64], k: usize) -> i64
    requires { Unpacks octets.now pixel i n 0 × (i + n ≤ length octets.now) × Plain octets.now i n
        × (n % 32 ≡ 0) × (k + n ≤ length out.old) }
    ensures { Filled octets.now pixel i n result (i + n) k out.old out.new }
{
    let mut z = pixel;
    for j in (0..n).step_by(32) {
        z = fill_block(octets, i + j, z, out, k + j);
    }
    z
}

fn fill_one(octets: &[u8], s: Last, out: &mut [i64], k: usize) -> Last
    requires { Unpacks octets.now s.pixel s.next 1 15 × (s.next ≤ length octets.now)
        × (k + 1 ≤ length out.old) }
    ensures { Filled octets.now s.pixel s.next 1 result.pixel result.next k out.old
        out.new }
{
    let d = difference::read_difference(octets, s.next);
    let pixel = s.pixel + d.value;
    out[k] = pixel;
    Last {
        pixel,
        next: d.next,
    }
}

// n pixels, one after another.
fn fill_each(octets: &[u8], s: Last, out: &mut [i64], k: usize, n: usize) -> Last
    requires { Unpacks octets.now s.pixel s.next n (15 * n) × (s.next ≤ length octets.now)
        × (k + n ≤ length out.old) }
    ensures { Filled octets.now s.pixel s.next n result.pixel result.next k out.old
        out.new }
{
    let mut last = s;
    for j in 0..n {
        last = fill_one(octets, last, out, k + j);
    }
    last
}

// The compiler writes four pixels out, so that the loop is tested less often: with octets that have escapes, one test a
// pixel costs a seventh more.
fn fill_32(octets: &[u8], s: Last, out: &mut [i64], k: usize) -> Last
    requires { Unpacks octets.now s.pixel s.next 32 480 × (s.next ≤ length octets.now)
        × (k + 32 ≤ length out.old) }
    ensures { Filled octets.now s.pixel s.next 32 result.pixel result.next k out.old
        out.new }
{
    let mut last = s;
    for j in (0..32).step_by(4) {
        last = fill_each(octets, last, out, k + j, 4);
    }
    last
}

// n pixels, at most 32.
fn fill_few(octets: &[u8], s: Last, out: &mut [i64], k: usize, n: usize) -> Last
    requires { Unpacks octets.now s.pixel s.next n (15 * n) × (s.next ≤ length octets.now)
        × (k + n ≤ length out.old) × (n ≤ 32) }
    ensures { Filled octets.now s.pixel s.next n result.pixel result.next k out.old
        out.new }
{
    if n < 32 {
        return fill_each(octets, s, out, k, n);
    }
    fill_32(octets, s, out, k)
}

// The count pixels after s, written from k on: those whose octets are there, and all of them where the octets have
// ended.
pub fn fill_part(
    octets: &[u8],
    ended: bool,
    s: Last,
    count: usize,
    out: &mut [i64],
    k: usize,
) -> Part
    requires { Fillable octets.now ended s.pixel s.next count × (s.next ≤ length octets.now)
        × (k + count ≤ length out.old) }
    ensures { FilledPart octets.now ended s.pixel s.next count k out.old
        out.new result }
{
    let mut last = s;
    let mut j = 0;
    // no `for`: how far a turn goes is known when it is over
    while j < count && !plain::waits(ended, octets.len() - last.next) {
        let mut n = plain::plain_run(octets, last.next, count - j);
        if n == 0 {
            n = plain::part(count - j);
            last = fill_few(octets, last, out, k + j, n);
        } else {
            let pixel = fill_run(octets, last.next, n, last.pixel, out, k + j);
            last = Last {
                pixel,
                next: last.next + n,
            };
        }
        j += n;
    }
    Part { count: j, last }
}

// The pixels, written to the front of out.
pub fn fill(kind: ElementType, octets: &[u8], count: usize, out: &mut [i64])
    requires { (is_some (unpack_byte_offset kind count octets.now) ≡ true) × (count ≤ length out.old) }
    ensures { out.new ≡ pixels_of (unpack_byte_offset kind count octets.now)
        ++ drop count out.old }
{
    fill_part(octets, true, Last { pixel: 0, next: 0 }, count, out, 0);
}
