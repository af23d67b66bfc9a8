// BASE64 text.
ghost use Rattle.std.specs.Prelude.{◌≡◌, [], ◌+◌, ◌≤◌, length};
ghost use Rattle.cbf_answers.specs.Limits.{file_limit};
ghost use Rattle.cbf_format.specs.Base64.{symbol as symbol_of};
ghost use Rattle.cbf_base64.specs.Base64.{add_symbol_to, add_letters_to, groups_of, SymbolsTo};
ghost use Rattle.cbf_base64.specs.Base64.{groups_hold, unused_zero};

use cbf_format::Symbol;
use cbf_lines::text;

// "A match on the byte with ranges gives its six-bit number, a pad, a blank, or none."
pub fn symbol(b: u8) -> Symbol
    ensures { result ≡ symbol_of b }
{
    match b {
        65..=90 => Symbol::Letter(b - 65),
        97..=122 => Symbol::Letter(b - 71),
        48..=57 => Symbol::Letter(b + 4),
        43 => Symbol::Letter(62),
        47 => Symbol::Letter(63),
        61 => Symbol::Pad,
        9 | 32 => Symbol::Blank,
        _ => Symbol::Other,
    }
}

// Letters and pads so far, the last letter's six bits, and whether a letter stands after a pad.
#[derive(Clone, Copy, Debug, PartialEq, Eq)]
pub struct Groups {
    pub letters: usize,
    pub pads: usize,
    pub last: u8,
    pub broken: bool,
}

impl Groups {
    #[tactic(auto, unfolding(crate::specs::Base64::groups_of, crate::specs::Base64::groups_from))]
    pub fn none() -> Groups
        ensures { result ≡ groups_of [] }
    {
        Groups {
            letters: 0,
            pads: 0,
            last: 0,
            broken: false,
        }
    }

    // One symbol more.
    pub fn with(self, s: Symbol) -> Groups
        requires { (self.letters ≤ file_limit) × (self.pads ≤ file_limit) }
        ensures { result ≡ add_symbol_to self s }
    {
        match s {
            Symbol::Letter(n) => Groups {
                letters: self.letters + 1,
                last: n,
                broken: self.broken || self.pads != 0,
                ..self
            },
            Symbol::Pad => Groups {
                pads: self.pads + 1,
                ..self
            },
            Symbol::Blank | Symbol::Other => self,
        }
    }

    // Whether the bits of the last letter that no octet takes are zero.
    #[tactic(auto, unfolding(crate::specs::Base64::unused_zero))]
    fn unused_zero(self) -> bool
        ensures { result ≡ unused_zero self.pads self.last }
    {
        match self.pads {
            0 => true,
            1 => self.last % 4 == 0,
            2 => self.last % 16 == 0,
            _ => false,
        }
    }

    // n letters more, of which this byte is the last.
    fn with_letters(self, n: usize, last: u8) -> Groups
        requires { (self.letters + n ≤ file_limit) × (self.pads ≤ file_limit) }
        ensures { result ≡ add_letters_to self n (symbol_of last) }
    {
        Groups {
            letters: self.letters + n,
            ..self.with(symbol(last))
        }
    }
}

// Whether the text so far is whole and stands for size octets.
#[tactic(auto, unfolding(crate::specs::Base64::groups_hold))]
pub fn groups_hold(g: Groups, size: usize) -> bool
    requires { (g.letters ≤ file_limit) × (g.pads ≤ file_limit) }
    ensures { result ≡ groups_hold g size }
{
    !g.broken && (g.letters + g.pads) % 4 == 0 && g.letters * 3 / 4 == size && g.unused_zero()
}

// The symbols up to a place.
#[derive(Clone, Copy, Debug, PartialEq, Eq)]
pub struct Symbols {
    pub groups: Groups,
    pub to: usize,
}

// The symbols of the text from `from` on, up to `to` or the first byte that is no letter, pad or blank: letters by
// blocks, of which only the last one's number counts, then one symbol after another.
pub fn text_symbols(file: &[u8], from: usize, to: usize, g: Groups) -> Symbols
    requires { (from ≤ to) × (to ≤ length file.now) × (g.letters + g.pads ≤ from) × (to ≤ file_limit) }
    ensures { SymbolsTo file.now from to g result }
{
    let run = text::after_blocks(file, from, to, text::base64_letter);
    let mut groups = if from < run {
        g.with_letters(run - from, file[run - 1])
    } else {
        g
    };
    for i in run..to {
        match symbol(file[i]) {
            Symbol::Other => return Symbols { groups, to: i },
            s => groups = groups.with(s),
        }
    }
    Symbols { groups, to }
}
