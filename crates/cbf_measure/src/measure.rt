// The first pass of packing: whether each pixel is in its type, and how many octets the packed pixels take.
ghost use Rattle.std.specs.Prelude.{◌≡◌, ◌+◌, ◌-◌, ◌*◌, ◌<◌, ◌≤◌, true, false, [], ◌∷◌, length, pos, ◌-ℤ◌, int_lt, nat_lt, slice_index_or, unsigned_abs, IfSome};
ghost use Rattle.cbf_answers.specs.Limits.{pixel_limit};
ghost use Rattle.cbf_pixels.specs.Pixels.{least, greatest, all_within, pack_difference};
ghost use Rattle.cbf_measure.specs.Measure.{Typed, steps_size, far_steps, over, part, size_within, size_of};
ghost use Rattle.cbf_measure.specs.Range.{EachWithin, SameSteps};

use crate::{range, window};
use cbf_pixels::ElementType;

// The least and the greatest pixel of a type.
#[derive(Clone, Copy)]
struct Bounds {
    least: i64,
    greatest: i64,
}

impl Bounds {
    fn of(kind: ElementType) -> Bounds
        ensures { result ≡ record { least = least kind; greatest = greatest kind } }
    {
        let (least, greatest) = match kind {
            ElementType::U8 => (0, 255),
            ElementType::S8 => (-128, 127),
            ElementType::U16 => (0, 65535),
            ElementType::S16 => (-32768, 32767),
            ElementType::U32 => (0, 4294967295),
            ElementType::S32 => (-2147483648, 2147483647),
        };
        Bounds { least, greatest }
    }
}

// Whether a width holds the difference d: half is half of the width's numbers.
pub fn narrow(d: i64, half: u32) -> bool
    ensures { result ≡ nat_lt (unsigned_abs d) half }
{
    let h = i64::from(half);
    -h < d && d < h
}

// The octets of a difference.
fn difference_size(d: i64) -> usize
    ensures { (result ≡ length (pack_difference d)) × (0 < result) × (result ≤ 15) }
{
    if narrow(d, 32768) {
        if narrow(d, 128) { 1 } else { 3 }
    } else if narrow(d, 2147483648) {
        7
    } else {
        15
    }
}

// The octets of the pixel z after last. None: it is outside its type.
fn pixel_size(z: i64, last: i64, bounds: Bounds) -> Option<usize>
    requires { Typed bounds.least bounds.greatest last }
    ensures size { result ≡ size_within bounds.least bounds.greatest last (z ∷ []) }
    ensures few { IfSome result (λ n. n ≤ 15) }
{
    if z < bounds.least || bounds.greatest < z {
        return None;
    }
    Some(difference_size(z - last))
}

// The octets of pixels after last. None: one is outside.
fn size_of_each(pixels: &[i64], last: i64, bounds: Bounds) -> Option<usize>
    requires { Typed bounds.least bounds.greatest last × (length pixels.now ≤ 128) }
    ensures size { result ≡ size_within bounds.least bounds.greatest last pixels.now }
    ensures few { IfSome result (λ n. n ≤ 15 * length pixels.now) }
{
    let mut before = last;
    let mut total = 0;
    for z in pixels {
        total += pixel_size(*z, before, bounds)?;
        before = *z;
    }
    Some(total)
}

// 0 where a width holds the distance m, and 1 where not.
#[tactic(auto, unfolding(crate::specs::Measure::over))]
fn beyond(m: u32, half: u32) -> u32
    ensures { (result ≡ over (pos m) half) × (result ≤ 1) }
{
    u32::from(half <= m)
}

// How many of the 128 words after the first are 2^31 or more from the one before.
fn count_far(words: &[i32; 129]) -> u32
    ensures { (result ≡ far_steps words.now 128) × (result ≤ 128) }
{
    let mut four = 0;
    for j in 0..128 {
        four += beyond(words[j + 1].abs_diff(words[j]), 2147483648);
    }
    four
}

// The octets of the 128 words after the first, without a branch for each. Few parts have a difference of eight octets:
// the bitwise or of the distances shows which.
fn size_of_words(words: &[i32; 129]) -> usize
    ensures { (result ≡ steps_size words.now 0 128) × (result ≤ 15 * 128) }
{
    let mut one = 0;
    let mut two = 0;
    let mut all = 0;
    for j in 0..128 {
        let m = words[j + 1].abs_diff(words[j]);
        one += beyond(m, 128);
        two += beyond(m, 32768);
        all |= m;
    }
    let size = 128 + 2 * one as usize + 4 * two as usize;
    if all < 2147483648 {
        return size;
    }
    size + 8 * count_far(words) as usize
}

// 129 pixels as words that stand as far apart, where the pixels are in their type: true only then.
fn typed_words(pixels: &[i64], last: i64, bounds: Bounds, words: &mut [i32; 129]) -> bool
    requires { Typed bounds.least bounds.greatest last × (length pixels.now ≡ 129) }
    ensures { result ≡ true → EachWithin pixels.now 0 129 bounds.least bounds.greatest
        × SameSteps pixels.now 0 128 words.new }
{
    range::words_within(pixels, bounds.least < 0, bounds.greatest as u64, words)
}

// The octets of the n pixels from k on. None: one is outside. last is the pixel before them, which is read again where
// they are words: so they are no slice.
fn size_of_part(
    pixels: &[i64],
    k: usize,
    n: usize,
    last: i64,
    bounds: Bounds,
    words: &mut [i32; 129],
) -> Option<usize>
    requires { Typed bounds.least bounds.greatest last × (k + n ≤ length pixels.now) × (n ≤ 128) × (0 < k
        → last ≡ slice_index_or pixels.now (k - 1) (pos 0)) }
    ensures size { result ≡ size_within bounds.least bounds.greatest last (part pixels.now k n) }
    ensures few { IfSome result (λ size. size ≤ 15 * n) }
{
    if k == 0 || n < 128 || !typed_words(&pixels[k - 1..k + 128], last, bounds, words) {
        return size_of_each(&pixels[k..k + n], last, bounds);
    }
    Some(size_of_words(words))
}

// The octets of all pixels, of which there are at most the pixel limit. None: a pixel is outside its type.
pub fn octet_count(kind: ElementType, pixels: &[i64]) -> Option<usize>
    requires { length pixels.now ≤ pixel_limit }
    ensures { result ≡ size_of kind pixels.now }
{
    let bounds = Bounds::of(kind);
    let mut words = [0i32; 129];
    let mut last = 0;
    let mut total = 0;
    let mut k = 0;
    // runs and parts are of many lengths: no `for` and no `chunks` has them
    while k < pixels.len() {
        let mut n = window::window_run(&pixels[k..], last);
        if n == 0 {
            n = window::part(pixels.len() - k);
            total += size_of_part(pixels, k, n, last, bounds, &mut words)?;
        } else {
            total += n;
        }
        k += n;
        last = pixels[k - 1];
    }
    Some(total)
}

// Whether all pixels are in their type: true only where they are.
pub fn all_typed(kind: ElementType, pixels: &[i64]) -> bool
    ensures { result ≡ true → all_within (least kind) (greatest kind) pixels.now ≡ true }
{
    let bounds = Bounds::of(kind);
    range::each_within(pixels, bounds.least < 0, bounds.greatest as u64)
}
