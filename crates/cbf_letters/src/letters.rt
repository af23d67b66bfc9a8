// The letters of BASE64 text that reading has found good: each of its bytes is a letter, a pad, a blank, or of a line
// end.
ghost use Rattle.std.specs.Prelude.{◌≡◌, true, ◌+◌, ◌-◌, ◌%◌, ◌<◌, ◌≤◌, length, get_or};
ghost use Rattle.std.proofs.lemmas.List.Edits.{sets};
ghost use Rattle.std.proofs.Math.Seq.{slice};
ghost use Rattle.cbf_format.specs.Base64.{symbol};
ghost use Rattle.cbf_format.specs.declared.Symbol.TheVariants.{Letter};
ghost use Rattle.cbf_lines.specs.Text.{is_letter};
ghost use Rattle.cbf_letters.specs.Letters.{sixes};
ghost use Rattle.cbf_letters.specs.Octets.{text_byte, GoodText, LettersOnly, NextLetterSays};

// Whether a byte of good text is a letter. Of what is no letter only the pad is above 42.
fn letter(b: u8) -> bool
    requires { text_byte b ≡ true }
    ensures { result ≡ is_letter (symbol b) }
{
    43 <= b && b != 61
}

// Whether all bytes are letters. No early end, so that they are tested at once.
fn all_letters(block: &[u8]) -> bool
    requires { GoodText block.now 0 (length block.now) }
    ensures { result ≡ true → LettersOnly block.now 0 (length block.now) }
{
    let mut all = true;
    for b in block {
        all &= letter(*b);
    }
    all
}

// A place from `from` on up to which all bytes are letters, by blocks of n: less than that is left, or the next block
// has another byte.
pub fn after_letters(file: &[u8], from: usize, to: usize, n: usize) -> usize
    requires { (from ≤ to) × (to ≤ length file.now) × GoodText file.now from to × (0 < n) × (n % 4 ≡ 0) }
    ensures { (from ≤ result) × (result ≤ to) × LettersOnly file.now from result × ((result - from) % 4 ≡ 0) }
{
    let mut i = from;
    // no `chunks`: the place where the blocks end is the answer
    while n <= to - i {
        if !all_letters(&file[i..i + n]) {
            return i;
        }
        i += n;
    }
    i
}

// The six-bit number of a letter: '+' is 62, and the tests lead from it to '/', the digits, the large and the small
// letters. They are no branches, so that many letters are taken at once.
fn number_of(b: u8) -> u8
    requires { is_letter (symbol b) ≡ true }
    ensures { symbol b ≡ Letter result }
{
    let mut n = b + 19;
    if 46 < b {
        n -= 3;
    }
    if 47 < b {
        n -= 12;
    }
    if 64 < b {
        n -= 69;
    }
    if 96 < b {
        n -= 6;
    }
    n
}

// The numbers of the letters, written to the front of numbers.
pub fn numbers_of(text: &[u8], numbers: &mut [u8])
    requires { LettersOnly text.now 0 (length text.now) × (length text.now ≤ length numbers.old) }
    ensures { numbers.new ≡ sets numbers.old 0 (sixes text.now) }
{
    for j in 0..text.len() {
        numbers[j] = number_of(text[j]);
    }
}

// The place of the next letter, or to.
pub fn next_place(file: &[u8], at: usize, to: usize) -> usize
    requires { (at ≤ to) × (to ≤ length file.now) × GoodText file.now at to }
    ensures { (at ≤ result) × (result ≤ to) × (sixes (slice at to file.now)
        ≡ sixes (slice result to file.now)) × (result < to → is_letter (symbol (get_or file.now result 0))
        ≡ true) }
{
    for i in at..to {
        if letter(file[i]) {
            return i;
        }
    }
    to
}

// A letter's number and the place after it; where the text ends, 0, which stands for the letter that the last group
// lacks.
#[derive(Clone, Copy)]
pub struct Six {
    pub number: u8,
    pub next: usize,
}

// The next letter.
pub fn next_letter(file: &[u8], at: usize, to: usize) -> Six
    requires { (at ≤ to) × (to ≤ length file.now) × GoodText file.now at to }
    ensures { NextLetterSays file.now at to result.number result.next }
{
    let i = next_place(file, at, to);
    if i < to {
        return Six {
            number: number_of(file[i]),
            next: i + 1,
        };
    }
    Six {
        number: 0,
        next: to,
    }
}
