// The second pass of packing: the octets of pixels that are known to be in their type and to fit the output.
ghost use Rattle.std.specs.Prelude.{◌≡◌, ℕ, ◌+◌, ◌-◌, ◌%◌, ◌<◌, ◌≤◌, ◌^◌, ◌++◌, length, nat_abs};
ghost use Rattle.std.proofs.lemmas.List.Edits.{sets};
ghost use Rattle.cbf_pixels.specs.Octets.{octets as octets_of, bits};
ghost use Rattle.cbf_pixels.specs.Pixels.{pack_difference, pack_from, pack_byte_offset};
ghost use Rattle.cbf_pack.specs.Dense.{packing_forms};
ghost use Rattle.cbf_pack.specs.Write.{AllSmall, InOneWindow, WritableAll, WroteAll, WroteOver};
ghost use Rattle.cbf_measure.specs.Window.{WindowRun};
ghost use Rattle.cbf_measure.specs.Measure.{part};

use crate::dense;
use crate::dense::Forms;
use cbf_measure::{measure, range, window};
use cbf_octets::octets;

// An escape of each kind, and the number after it.
fn put_3(out: &mut [u8], at: usize, n: u64)
    requires { at + 3 ≤ length out.old }
    ensures { out.new ≡ sets out.old at (octets_of 1 128 ++ octets_of 2 n) }
{
    octets::put::<1>(out, at, 128);
    octets::put::<2>(out, at + 1, n);
}

// 80 00 80 and an octet that the number overwrites: one store of four octets.
fn put_7(out: &mut [u8], at: usize, n: u64)
    requires { at + 7 ≤ length out.old }
    ensures { out.new ≡ sets out.old at (octets_of 1 128 ++ octets_of 2 32768
        ++ octets_of 4 n) }
{
    octets::put::<4>(out, at, 8388736);
    octets::put::<4>(out, at + 3, n);
}

pub fn put_15(out: &mut [u8], at: usize, n: u64)
    requires { at + 15 ≤ length out.old }
    ensures { out.new ≡ sets out.old at (octets_of 1 128 ++ octets_of 2 32768
        ++ octets_of 4 2147483648 ++ octets_of 8 n) }
{
    put_7(out, at, 2147483648);
    octets::put::<8>(out, at + 7, n);
}

// The octets of a difference, written at at; the answer is where the next ones go. One octet is tested first: most
// differences take one.
fn put_difference(out: &mut [u8], at: usize, d: i64) -> usize
    requires { at + length (pack_difference d) ≤ length out.old }
    ensures { (result ≡ at + length (pack_difference d))
        × (out.new ≡ sets out.old at (pack_difference d)) }
{
    let n = range::bits_of_far(d);
    if measure::narrow(d, 128) {
        octets::put::<1>(out, at, n);
        at + 1
    } else if measure::narrow(d, 32768) {
        put_3(out, at, n);
        at + 3
    } else if measure::narrow(d, 2147483648) {
        put_7(out, at, n);
        at + 7
    } else {
        put_15(out, at, n);
        at + 15
    }
}

// 32 pixels that stand in the window of last.
fn write_block(block: &[i64], last: i64, out: &mut [u8], at: usize)
    requires { InOneWindow block.now last × (length block.now ≡ 32) × (at + 32 ≤ length out.old) }
    ensures { out.new ≡ sets out.old at (pack_from last block.now) }
{
    let mut before = last;
    for j in 0..32 {
        let z = block[j];
        octets::put::<1>(out, at + j, range::bits_of_far(z - before));
        before = z;
    }
}

// Pixels that stand in the window of last, in blocks of 32.
fn write_run(run: &[i64], last: i64, out: &mut [u8], at: usize)
    requires { InOneWindow run.now last × (at + length run.now ≤ length out.old) }
    ensures { out.new ≡ sets out.old at (pack_from last run.now) }
{
    let mut before = last;
    for b in 0..run.len() / 32 {
        let j = 32 * b;
        write_block(&run[j..j + 32], before, out, at + j);
        before = run[j + 31];
    }
}

// Four pixels; the answer is where the next octets go.
fn write_four(four: &[i64], last: i64, out: &mut [u8], at: usize) -> usize
    requires { WritableAll four.now last out.old at × (length four.now ≡ 4) }
    ensures { WroteAll four.now last out.old at out.new result }
{
    let at1 = put_difference(out, at, four[0] - last);
    let at2 = put_difference(out, at1, four[1] - four[0]);
    let at3 = put_difference(out, at2, four[2] - four[1]);
    put_difference(out, at3, four[3] - four[2])
}

fn write_128(pixels: &[i64], last: i64, out: &mut [u8], at: usize) -> usize
    requires { WritableAll pixels.now last out.old at × (length pixels.now ≡ 128) }
    ensures { WroteAll pixels.now last out.old at out.new result }
{
    let mut before = last;
    let mut next = at;
    for four in 0..32 {
        let j = 4 * four;
        next = write_four(&pixels[j..j + 4], before, out, next);
        before = pixels[j + 3];
    }
    next
}

fn write_each(pixels: &[i64], last: i64, out: &mut [u8], at: usize) -> usize
    requires { WritableAll pixels.now last out.old at }
    ensures { WroteAll pixels.now last out.old at out.new result }
{
    let mut before = last;
    let mut next = at;
    for z in pixels {
        next = put_difference(out, next, *z - before);
        before = *z;
    }
    next
}

// At most 128 pixels.
fn write_few(pixels: &[i64], last: i64, out: &mut [u8], at: usize) -> usize
    requires { WritableAll pixels.now last out.old at × (length pixels.now ≤ 128) }
    ensures { WroteAll pixels.now last out.old at out.new result }
{
    if pixels.len() < 128 {
        write_each(pixels, last, out, at)
    } else {
        write_128(pixels, last, out, at)
    }
}

// The first n pixels of those left, where the part before took used octets. Where others are behind them, a few octets
// more may be written, which are theirs.
fn write_part(
    left: &[i64],
    n: usize,
    last: i64,
    out: &mut [u8],
    at: usize,
    used: usize,
    forms: &Forms,
) -> usize
    requires { (forms.now ≡ packing_forms) × (n ≤ 128) × (n ≤ length left.now) × WritableAll left.now last out.old at }
    ensures { WroteOver left.now 0 n last out.old at out.new result (length left.now - n) }
{
    if dense::dense(used, n, left.len()) {
        dense::write_dense(left, n, last, out, at, forms)
    } else {
        write_few(&left[..n], last, out, at)
    }
}

// The octets of all pixels, written to out from start on; the place after them.
pub fn write_octets(pixels: &[i64], out: &mut [u8], start: usize) -> usize
    requires { AllSmall pixels.now × (start + length (pack_byte_offset pixels.now) ≤ length out.old) }
    ensures value { result ≡ start + length (pack_byte_offset pixels.now) }
    ensures out_after { out.new ≡ sets out.old start (pack_byte_offset pixels.now) }
{
    let forms = Forms {
        shift: [0, 8, 24],
        escapes: [0, 128, 8388736],
        length: [1, 3, 7],
    };
    let mut last = 0;
    let mut at = start;
    let mut used = 0;
    let mut k = 0;
    // runs and parts are of many lengths: no `for` and no `chunks` has them
    while k < pixels.len() {
        let mut n = window::window_run(&pixels[k..], last);
        if n == 0 {
            n = window::part(pixels.len() - k);
            let next = write_part(&pixels[k..], n, last, out, at, used, &forms);
            used = next - at;
            at = next;
        } else {
            write_run(&pixels[k..k + n], last, out, at);
            at += n;
        }
        k += n;
        last = pixels[k - 1];
    }
    at
}
