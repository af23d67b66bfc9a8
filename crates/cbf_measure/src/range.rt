// Whether pixels are from 0, or from -1 - limit, to limit, where limit + 1 is a power of two: without a branch for
// each, by the bitwise or of them.
ghost use Rattle.std.specs.Prelude.{◌≡◌, ℕ, ◌+◌, ◌%◌, ◌^◌, ◌<◌, ◌≤◌, true, length, pos, slice_index_or};
ghost use Rattle.std.proofs.Math.IntN.{sub_ℕ};
ghost use Rattle.std.specs.Int.Signed.{mag};
ghost use Rattle.cbf_pixels.specs.Octets.{bits};
ghost use Rattle.cbf_measure.specs.Range.{lowest, raised_by, EachWithin, Gathered, SameSteps};

// The number in eight octets.
pub fn bits_of_far(d: i64) -> u64
    ensures { result ≡ bits 8 d }
{
    d.cast_unsigned()
}

// The number in eight octets, raised by below: a number from -below on is not negative then.
fn place(z: i64, below: u64) -> u64
    ensures { result ≡ (bits 8 z + below) % 2 ^ 64 }
{
    bits_of_far(z).wrapping_add(below)
}

// At least the place of each pixel.
fn spread(pixels: &[i64], below: u64) -> u64
    ensures { (j : ℕ) → j < length pixels.now
        → ((bits 8 (slice_index_or pixels.now j (pos 0)) + below) % 2 ^ 64 ≤ result)
        × (mag (slice_index_or pixels.now j (pos 0)) < 2 ^ 63) }
{
    let mut all = 0;
    for z in pixels {
        all |= place(*z, below);
    }
    all
}

// Whether each pixel is at most limit, and from 0 or from -1 - limit on: true only where it is so.
pub fn each_within(pixels: &[i64], signed: bool, limit: u64) -> bool
    requires { limit < 2 ^ 62 }
    ensures { result ≡ true → EachWithin pixels.now 0 (length pixels.now) (lowest signed limit) (pos limit) }
{
    // two calls, as 0 need not be added
    if signed {
        let below = limit + 1;
        spread(pixels, below) <= limit + below
    } else {
        spread(pixels, 0) <= limit
    }
}

// The low 32 bits of a number, moved down by 2^31.
fn word_of(n: u64) -> i32
    ensures { result ≡ sub_ℕ (n % 2 ^ 32) 2147483648 }
{
    ((n % 4294967296) as i64 - 2147483648) as i32
}

// The places of 129 pixels, as words of 32 bits: vectors hold twice as many of them. The answer is at least
// each place.
fn gather(pixels: &[i64], below: u64, words: &mut [i32; 129]) -> u64
    requires { length pixels.now ≡ 129 }
    ensures { Gathered pixels.now 0 129 below words.new result }
{
    let mut all = 0;
    for j in 0..129 {
        let p = place(pixels[j], below);
        all |= p;
        words[j] = word_of(p);
    }
    all
}

// Whether each of 129 pixels is at most limit, and from 0 or from -1 - limit on: true only where it is
// so, and then the words stand as far apart as the pixels.
pub fn words_within(pixels: &[i64], signed: bool, limit: u64, words: &mut [i32; 129]) -> bool
    requires { (length pixels.now ≡ 129) × (limit + raised_by signed limit < 2 ^ 32) }
    ensures { result ≡ true → EachWithin pixels.now 0 129 (lowest signed limit) (pos limit)
        × SameSteps pixels.now 0 128 words.new }
{
    if signed {
        let below = limit + 1;
        gather(pixels, below, words) <= limit + below
    } else {
        gather(pixels, 0, words) <= limit
    }
}
