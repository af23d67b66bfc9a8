// How unpacking goes on: runs of plain octets (octets other than the escape 80, each of which is a difference), and
// parts.
ghost use Rattle.std.specs.Prelude.{◌≡◌, true, false, ◌⊎◌, ◌+◌, ◌<◌, ◌≤◌, length};
ghost use Rattle.cbf_octets.specs.Plain.{Plain, PlainRun};

// Whether one of the 32 octets from i is the escape.
fn escapes(octets: &[u8], i: usize) -> bool
    requires { i + 32 ≤ length octets.now }
    ensures { result ≡ false → Plain octets.now i 32 }
{
    // without an early end, as `contains` has one: so the 32 are tested at once
    let mut found = false;
    for j in 0..32 {
        if octets[i + j] == 128 {
            found = true;
        }
    }
    found
}

// How many plain octets start at i, in blocks of 32, at most limit. The first octet is tested by itself, which spares
// the test of a block where most pixels have an escape.
fn plain_blocks(octets: &[u8], i: usize, limit: usize) -> usize
    requires { (i ≤ length octets.now) × (limit ≤ 4096) }
    ensures { PlainRun octets.now i limit result }
{
    let left = octets.len() - i;
    if left == 0 || octets[i] == 128 {
        return 0;
    }
    let mut n = 0;
    // no `chunks`: the place where the blocks end is the answer
    while 32 <= limit - n && 32 <= left - n && !escapes(octets, i + n) {
        n += 32;
    }
    n
}

// The same, at most 4,096: so many differences of one octet stay far from the ends of a type of 32 bits, and the
// octets are near when they are read again.
pub fn plain_run(octets: &[u8], i: usize, limit: usize) -> usize
    requires { i ≤ length octets.now }
    ensures { PlainRun octets.now i limit result }
{
    plain_blocks(octets, i, limit.min(4096))
}

// How many pixels the next part has, where n are left.
pub fn part(n: usize) -> usize
    ensures { (result ≤ n) × (result ≤ 32) × (0 < n → 0 < result) }
{
    n.min(32)
}

// 32 pixels of at most 15 octets.
const PART_OCTETS: usize = 480;

// Whether unpacking waits for more octets: they have not ended, and so few are left that a part could run out of them.
pub fn waits(ended: bool, left: usize) -> bool
    ensures { (result ≡ true → (ended ≡ false) × (left < 480)) × (result ≡ false → (ended ≡ true) ⊎ (480 ≤ left)) }
{
    !ended && left < PART_OCTETS
}
