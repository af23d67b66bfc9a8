// Numbers as decimal digits without leading zeros.
ghost use Rattle.std.specs.Prelude.{◌≡◌, ◌+◌, ◌≤◌, ◌<◌, length};
ghost use Rattle.std.proofs.lemmas.List.Edits.{sets};
ghost use Rattle.cbf_format.specs.Listing.{printed};

// How many digits the number has.
pub fn digit_count(n: u64) -> usize
    ensures { (result ≡ length (printed n)) × (result ≤ 20) }
{
    let mut rest = n;
    let mut k = 1;
    // divisions are counted, and no index
    while 10 <= rest {
        rest /= 10;
        k += 1;
    }
    k
}

// Writes the number's digits to out from at on; the place after them.
pub fn put_number(out: &mut [u8], at: usize, n: u64) -> usize
    requires { at + length (printed n) ≤ length out.old }
    ensures value { result ≡ at + length (printed n) }
    ensures out_after { out.new ≡ sets out.old at (printed n) }
{
    let end = at + digit_count(n);
    let mut rest = n;
    // from the last digit to the first
    for i in (at..end).rev() {
        out[i] = b'0' + (rest % 10) as u8;
        rest /= 10;
    }
    end
}
