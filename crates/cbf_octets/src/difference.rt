// One difference of the byte-offset rule, read from octets.
ghost use Rattle.std.specs.Prelude.{◌≡◌, true, false, ℕ, ◌<◌, ◌≤◌, ◌^◌, length, drop};
ghost use Rattle.cbf_pixels.specs.Octets.{half as half_of, signed};
ghost use Rattle.cbf_pixels.specs.Pixels.{read_by, widths, run_out};
ghost use Rattle.cbf_octets.specs.Difference.{Halved, clamped, Whole, Took};

use crate::octets;

// A number of a width, in two's complement. half is half of the width's numbers: 2^7, 2^15 or 2^31.
pub fn extended(n: u64, half: u64) -> i64
    requires { Halved half n }
    ensures { (k : ℕ) → half ≡ half_of k → result ≡ signed k n }
{
    (n ^ half) as i64 - half as i64
}

// Eight octets, in two's complement, clamped.
fn far(n: u64) -> i64
    ensures { result ≡ clamped (signed 8 n) }
{
    if n <= 8589934592 {
        n as i64
    } else if n < 18446744065119617024 {
        68719476736
    } else {
        -1 - (u64::MAX - n) as i64
    }
}

// One difference, clamped, and where the next one starts.
#[derive(Clone, Copy, Debug, PartialEq, Eq)]
pub struct Difference {
    pub value: i64,
    pub next: usize,
}

// The difference whose octets start at i.
pub fn read_difference(octets: &[u8], i: usize) -> Difference
    requires { Whole octets.now i }
    ensures { Took octets.now i result.value result.next }
{
    let o = octets[i];
    if o != 128 {
        return Difference {
            value: extended(u64::from(o), 128),
            next: i + 1,
        };
    }
    let n2 = octets::le2(octets, i + 1);
    if n2 != 32768 {
        return Difference {
            value: extended(n2, 32768),
            next: i + 3,
        };
    }
    let n4 = octets::le4(octets, i + 3);
    if n4 != 2147483648 {
        return Difference {
            value: extended(n4, 2147483648),
            next: i + 7,
        };
    }
    Difference {
        value: far(octets::le8(octets, i + 7)),
        next: i + 15,
    }
}

// Whether the octets do not run out in the difference that starts at i. The widths are tried as they are read: one
// expression of the seven tests would hide that.
pub fn whole(octets: &[u8], i: usize) -> bool
    requires { i ≤ length octets.now }
    ensures { (result ≡ true → Whole octets.now i)
        × (result ≡ false → read_by widths (drop i octets.now) ≡ run_out) }
{
    let left = octets.len() - i;
    if left == 0 {
        return false;
    }
    if octets[i] != 128 {
        return true;
    }
    if left < 3 {
        return false;
    }
    if octets::le2(octets, i + 1) != 32768 {
        return true;
    }
    if left < 7 {
        return false;
    }
    if octets::le4(octets, i + 3) != 2147483648 {
        return true;
    }
    15 <= left
}
