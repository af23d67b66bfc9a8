// Octets from letters: four letters are three octets.
ghost use Rattle.std.specs.Prelude.{◌≡◌, true, ◌⊎◌, [], ◌+◌, ◌*◌, ◌/◌, ◌%◌, ◌<◌, ◌≤◌, length, take, get_or};
ghost use Rattle.std.proofs.lemmas.List.Edits.{sets};
ghost use Rattle.cbf_format.specs.Base64.{symbol};
ghost use Rattle.cbf_lines.specs.Text.{is_letter};
ghost use Rattle.cbf_letters.specs.Letters.{group_octets, sixes_octets};
ghost use Rattle.cbf_letters.specs.Octets.{GoodText, SixesOnly, Decodes, text_octets};

use crate::letters;

// Writes the octets of four numbers.
fn put_group(a: u8, b: u8, c: u8, d: u8, out: &mut [u8], at: usize)
    requires { (a < 64) × (b < 64) × (c < 64) × (d < 64) × (at + 3 ≤ length out.old) }
    ensures { out.new ≡ sets out.old at (group_octets a b c d) }
{
    out[at] = a * 4 + b / 16;
    out[at + 1] = b % 16 * 16 + c / 4;
    out[at + 2] = c % 4 * 64 + d;
}

// Writes the octets of k groups of numbers.
fn join(numbers: &[u8], k: usize, out: &mut [u8], at: usize)
    requires { (4 * k ≤ length numbers.now) × SixesOnly numbers.now (4 * k) × (at + 3 * k ≤ length out.old) }
    ensures { out.new ≡ sets out.old at
        (sixes_octets (take (4 * k) numbers.now)) }
{
    for j in 0..k {
        let i = 4 * j;
        put_group(
            numbers[i],
            numbers[i + 1],
            numbers[i + 2],
            numbers[i + 3],
            out,
            at + 3 * j,
        );
    }
}

// Decodes letters that stand side by side, at most 128; how many they were.
fn decode_run(file: &[u8], at: usize, to: usize, out: &mut [u8], from: usize) -> usize
    requires { (at ≤ to) × (to ≤ length file.now) × GoodText file.now at to × (from ≤ length out.old) }
    ensures { (result % 4 ≡ 0) × Decodes file.now at to out.old from out.new
        (at + result) (from + result / 4 * 3) }
{
    let room = (out.len() - from) / 3 * 4;
    let end = at + (to - at).min(room).min(128);
    let next = letters::after_letters(file, letters::after_letters(file, at, end, 16), end, 4);
    let mut numbers = [0; 128];
    letters::numbers_of(&file[at..next], &mut numbers);
    let n = next - at;
    join(&numbers, n / 4, out, from);
    n
}

// Decodes the next four letters, wherever they stand; the place after them.
fn decode_group(file: &[u8], at: usize, to: usize, out: &mut [u8], from: usize) -> usize
    requires { (at < to) × (to ≤ length file.now) × GoodText file.now at to
        × (is_letter (symbol (get_or file.now at 0)) ≡ true) × (from + 3 ≤ length out.old) }
    ensures { (at < result) × Decodes file.now at to out.old from out.new result
        (from + 3) }
{
    let a = letters::next_letter(file, at, to);
    let b = letters::next_letter(file, a.next, to);
    let c = letters::next_letter(file, b.next, to);
    let d = letters::next_letter(file, c.next, to);
    put_group(a.number, b.number, c.number, d.number, out, from);
    d.next
}

// The place in the text up to which it is decoded, and the end of the octets that were written.
#[derive(Clone, Copy, Debug, PartialEq, Eq)]
pub struct Decoded {
    pub at: usize,
    pub end: usize,
}

// Decodes the text from at on to out from `from` on, until out has no room for a group more or no letter is left.
pub fn decode(file: &[u8], at: usize, to: usize, out: &mut [u8], from: usize) -> Decoded
    requires { (at ≤ to) × (to ≤ length file.now) × GoodText file.now at to × (from ≤ length out.old) }
    ensures { Decodes file.now at to out.old from out.new result.at result.end
        × ((length out.old < result.end + 3) ⊎ (text_octets file.now result.at to ≡ [])) }
{
    let mut i = at;
    let mut k = from;
    // no `for`: how far a turn goes is known when it is over
    while 3 <= out.len() - k {
        i = letters::next_place(file, i, to);
        if to <= i {
            return Decoded { at: i, end: k };
        }
        let n = decode_run(file, i, to, out, k);
        if n == 0 {
            i = decode_group(file, i, to, out, k);
            k += 3;
        } else {
            i += n;
            k += n / 4 * 3;
        }
    }
    Decoded { at: i, end: k }
}
