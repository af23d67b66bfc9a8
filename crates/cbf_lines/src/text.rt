// Tests of bytes, and of the text from one place of the file up to another.
ghost use Rattle.std.specs.Prelude.{Bool, true, ℕ, ◌≡◌, ◌+◌, ◌≤◌, length};
ghost use Rattle.cbf_lines.specs.Text.{Run, Gives, plain_byte, is_letter};
ghost use Rattle.cbf_format.specs.Text.{blank as blank_byte, blanks, textual as textual_byte, lower as lower_of};
ghost use Rattle.cbf_format.specs.Text.{lowers, same};
ghost use Rattle.cbf_format.specs.Headers.{name_byte};
ghost use Rattle.cbf_format.specs.Base64.{symbol};

pub fn blank(b: u8) -> bool
    ensures { result ≡ blank_byte b }
{
    b == b'\t' || b == b' '
}

pub fn textual(b: u8) -> bool
    ensures { result ≡ textual_byte b }
{
    plain(b) || b == b'\t'
}

pub fn lower(b: u8) -> u8
    ensures { result ≡ lower_of b }
{
    match b {
        b'A'..=b'Z' => b + 32,
        _ => b,
    }
}

// "letters, digits, hyphens"
fn name_byte(b: u8) -> bool
    ensures { result ≡ name_byte b }
{
    matches!(b, b'a'..=b'z' | b'A'..=b'Z' | b'0'..=b'9' | b'-')
}

// Whether the text is just this word.
pub fn is_word(text: &[u8], word: &[u8]) -> bool
    ensures { result ≡ same text.now word.now }
{
    text == word
}

// Whether the text in lower case is just this word.
pub fn is_word_in_any_case(text: &[u8], word: &[u8]) -> bool
    ensures { result ≡ same word.now (lowers text.now) }
{
    if text.len() != word.len() {
        return false;
    }
    // no early end, so that many bytes are compared at once
    let mut differs = false;
    for i in 0..word.len() {
        if lower(text[i]) != word[i] {
            differs = true;
        }
    }
    !differs
}

// A text byte other than the tab.
fn plain(b: u8) -> bool
    ensures { result ≡ plain_byte b }
{
    b' ' <= b && b <= b'~'
}

// A letter of BASE64. `|` and `&` skip no test, so that sixteen bytes are tested at once.
pub fn base64_letter(b: u8) -> bool
    ensures { result ≡ is_letter (symbol b) }
{
    (b == b'+') | (b'/' <= b) & (b <= b'9') | (b'A' <= b) & (b <= b'Z') | (b'a' <= b) & (b <= b'z')
}

// The first place from `from` on that is `to` or holds no byte that passes the test.
pub fn after<F: Fn(u8) -> bool>(file: &[u8], from: usize, to: usize, test: F) -> usize
    requires tests { F.IsAlwaysCallable test }
    requires within { (from ≤ to) × (to ≤ length file.now) }
    ensures between { (from ≤ result) × (result ≤ to) }
    ensures run { (t : ℕ → Bool) → Gives (F.post test) t → Run t file.now from to result }
{
    for i in from..to {
        if !test(file[i]) {
            return i;
        }
    }
    to
}

// The first place from `from` on that is `to` or holds no blank.
pub fn after_blanks(file: &[u8], from: usize, to: usize) -> usize
    requires { (from ≤ to) × (to ≤ length file.now) }
    ensures { Run blank_byte file.now from to result }
{
    after(file, from, to, blank)
}

// Whether the text is blanks only.
pub fn is_blank_text(text: &[u8]) -> bool
    ensures { result ≡ blanks text.now }
{
    after_blanks(text, 0, text.len()) == text.len()
}

// Whether the sixteen bytes from at on pass the test. No early end, so that they are tested at once.
fn block<F: Fn(u8) -> bool>(file: &[u8], at: usize, test: &F) -> bool
    requires tests { F.IsAlwaysCallable test.now }
    requires within { at + 16 ≤ length file.now }
    ensures { (t : ℕ → Bool) → Gives (F.post test.now) t → result ≡ true → Run t file.now at (at + 16) (at + 16) }
{
    let mut other = false;
    for j in 0..16 {
        if !test(file[at + j]) {
            other = true;
        }
    }
    !other
}

// A place from `from` on up to which all bytes pass the test, by blocks of sixteen: less than that is left, or the
// next block has another byte.
pub fn after_blocks<F: Fn(u8) -> bool>(file: &[u8], from: usize, to: usize, test: F) -> usize
    requires tests { F.IsAlwaysCallable test }
    requires within { (from ≤ to) × (to ≤ length file.now) }
    ensures low { from ≤ result }
    ensures high { result ≤ to }
    ensures passed { (t : ℕ → Bool) → Gives (F.post test) t → Run t file.now from result result }
{
    let mut i = from;
    // no `chunks`: the place where the blocks end is the answer
    while 16 <= to - i {
        if !block(file, i, &test) {
            return i;
        }
        i += 16;
    }
    i
}

// The first place from `from` on that is `to` or holds no byte of a header's name. Most are small letters: they are
// tested first, each by two compares (one condition in place of the two branches takes twice the instructions).
pub fn after_name(file: &[u8], from: usize, to: usize) -> usize
    requires { (from ≤ to) × (to ≤ length file.now) }
    ensures { Run name_byte file.now from to result }
{
    for i in from..to {
        let b = file[i];
        if b < b'a' {
            if !name_byte(b) {
                return i;
            }
        } else if b'z' < b {
            return i;
        }
    }
    to
}

// The first place from `from` on that is `to` or holds no text byte. Two branches, as in `after_name`.
pub fn after_text(file: &[u8], from: usize, to: usize) -> usize
    requires { (from ≤ to) × (to ≤ length file.now) }
    ensures { Run textual_byte file.now from to result }
{
    for i in after_blocks(file, from, to, plain)..to {
        let b = file[i];
        if b < b' ' {
            if b != b'\t' {
                return i;
            }
        } else if b'~' < b {
            return i;
        }
    }
    to
}
