// Little-endian numbers in slices of octets.
ghost use Rattle.std.specs.Prelude.{◌≡◌, ◌+◌, ◌^◌, ◌<◌, ◌≤◌, length, take, drop};
ghost use Rattle.std.proofs.lemmas.List.Edits.{sets};
ghost use Rattle.cbf_pixels.specs.Octets.{number, octets as octets_of};

// The N octets from i on.
fn chunk<const N: usize>(octets: &[u8], i: usize) -> [u8; N]
    requires { i + N ≤ length octets.now }
    ensures { result ≡ take N (drop i octets.now) }
{
    let mut chunk = [0; N];
    chunk.copy_from_slice(&octets[i..i + N]);
    chunk
}

pub fn le2(octets: &[u8], i: usize) -> u64
    requires { i + 2 ≤ length octets.now }
    ensures { (result ≡ number (take 2 (drop i octets.now))) × (result < 256 ^ 2) }
{
    u64::from(u16::from_le_bytes(chunk(octets, i)))
}

pub fn le4(octets: &[u8], i: usize) -> u64
    requires { i + 4 ≤ length octets.now }
    ensures { (result ≡ number (take 4 (drop i octets.now))) × (result < 256 ^ 4) }
{
    u64::from(u32::from_le_bytes(chunk(octets, i)))
}

pub fn le8(octets: &[u8], i: usize) -> u64
    requires { i + 8 ≤ length octets.now }
    ensures { (result ≡ number (take 8 (drop i octets.now))) × (result < 256 ^ 8) }
{
    u64::from_le_bytes(chunk(octets, i))
}

// The N lowest octets of a number.
pub fn put<const N: usize>(out: &mut [u8], at: usize, n: u64)
    requires { (N ≤ 8) × (at + N ≤ length out.old) }
    ensures { out.new ≡ sets out.old at (octets_of N n) }
{
    out[at..at + N].copy_from_slice(&n.to_le_bytes()[..N]);
}
