// Numbers as octets, lowest first, and octets of one kind.
ghost use Rattle.std.specs.Prelude.{◌≡◌, ◌+◌, ◌≤◌, length};
ghost use Rattle.std.proofs.lemmas.List.Edits.{sets};
ghost use Rattle.cbf_pixels.specs.Octets.{octets};
ghost use Rattle.cbf_format.specs.Catalogue.{zeros};

// Writes the k lowest octets of a number to out from at on; the place after them.
pub fn put_little(out: &mut [u8], at: usize, k: usize, n: u64) -> usize
    requires { at + k ≤ length out.old }
    ensures value { result ≡ at + k }
    ensures out_after { out.new ≡ sets out.old at (octets k n) }
{
    let mut rest = n;
    for i in 0..k {
        out[at + i] = (rest % 256) as u8;
        rest = rest / 256;
    }
    at + k
}

// Writes that many zeros to out from at on; the place after them.
pub fn put_zeros(out: &mut [u8], at: usize, count: usize) -> usize
    requires { at + count ≤ length out.old }
    ensures value { result ≡ at + count }
    ensures out_after { out.new ≡ sets out.old at (zeros count) }
{
    out[at..at + count].fill(0);
    at + count
}
