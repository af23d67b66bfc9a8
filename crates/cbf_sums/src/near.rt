// Plain octets, many at once: where a pixel is less than 128 above some number, so are those after it exactly when
// their distances from it, summed up modulo 256, are below 128.
ghost use Rattle.std.specs.Prelude.{◌≡◌, ℕ, ◌+◌, ◌-◌, ◌%◌, ◌<◌, ◌≤◌, List, length, slice_index, IfSome};
ghost use Rattle.cbf_octets.specs.Plain.{Plain};
ghost use Rattle.cbf_sums.specs.Near.{Stays};
ghost use Rattle.cbf_sums.specs.Summing.{Written, four_at, Windows, Levels};

fn add4(a: u8, b: u8, c: u8, d: u8) -> u8
    ensures { result ≡ (a + b + c + d) % 256 }
{
    a.wrapping_add(b).wrapping_add(c.wrapping_add(d))
}

// From 16 on, the sum of each of n octets from i on and the three before it.
fn fours(octets: &[u8], i: usize, n: usize, sums: &mut [u8; 1040])
    requires { (3 ≤ i) × (i + n ≤ length octets.now) × (n ≤ 1024) × (length sums.old ≡ 1040) }
    ensures { Written (four_at octets.now i) n 1040 sums.old sums.new }
{
    for j in 0..n {
        let k = i + j;
        sums[16 + j] = add4(octets[k], octets[k - 1], octets[k - 2], octets[k - 3]);
    }
}

// The same without the octets before i.
fn windows(octets: &[u8], i: usize, n: usize, sums: &mut [u8; 1040])
    requires { (3 ≤ i) × (i + n ≤ length octets.now) × (3 ≤ n) × (n ≤ 1024) × (length sums.old ≡ 1040)
        × ((k : ℕ) → k < 16 → slice_index sums.old k ≡ 0) }
    ensures { Windows 256 4 octets.now i n sums.new }
{
    fours(octets, i, n, sums);
    sums[16] = octets[i];
    sums[17] = add4(octets[i], octets[i + 1], 0, 0);
    sums[18] = add4(octets[i], octets[i + 1], octets[i + 2], 0);
}

// From 16 on, the pixel after each octet, modulo 256; the bitwise or of them.
fn levels(sums: &[u8; 1040], n: usize, pixels: &mut [u8; 1040]) -> u8
    requires { (n ≤ 1024) × (length pixels.old ≡ 1040) }
    ensures by_index { (os : List ℕ) (i c : ℕ) → Windows 256 4 os i n sums.now
        → Levels 256 os i c 0 pixels.old → Levels 256 os i c n pixels.new }
    ensures by_index_2 { (k : ℕ) → k < n → slice_index pixels.new (16 + k) ≤ result }
{
    let mut all = 0;
    for j in 0..n {
        let more = add4(sums[16 + j], sums[12 + j], sums[8 + j], sums[4 + j]);
        let level = pixels[j].wrapping_add(more);
        pixels[16 + j] = level;
        all |= level;
    }
    all
}

// The distance from some number after n plain octets from i on, where it is c before them; None where one of the
// pixels is below that number, or 128 or more above it.
pub fn near(octets: &[u8], i: usize, n: usize, c: u8) -> Option<u8>
    requires { (3 ≤ i) × (i + n ≤ length octets.now) × (3 ≤ n) × (n ≤ 1024) × (c < 128) × Plain octets.now i n }
    ensures { IfSome result (λ above. (above < 128) × Stays octets.now i n c above) }
{
    let mut sums = [0u8; 1040];
    windows(octets, i, n, &mut sums);
    let mut pixels = [c; 1040];
    let all = levels(&sums, n, &mut pixels);
    if 127 < all {
        return None;
    }
    Some(pixels[15 + n])
}
