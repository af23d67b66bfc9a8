// A window of octets, filled again and again from a text.
ghost use Rattle.std.specs.Prelude.{◌≡◌, ◌≤◌, length};
ghost use Rattle.cbf_letters.specs.Octets.{GoodText};
ghost use Rattle.cbf_text.specs.TextWindow.{Holds, Refilled, fresh};

use cbf_letters::octets;

// The octets from next up to have are decoded and not used; behind them `left` octets are to come, from at on in the
// text.
#[derive(Drop)]
pub struct Window {
    pub octets: [u8; 1536],
    pub at: usize,
    pub left: usize,
    pub next: usize,
    pub have: usize,
}

impl Window {
    // A window that has nothing yet of the size octets that the text has from at on.
    pub fn new(at: usize, size: usize) -> Window
        ensures { result ≡ fresh at size }
    {
        Window {
            octets: [0; 1536],
            at,
            left: size,
            next: 0,
            have: 0,
        }
    }

    // Fills the window from the text that ends at to: what is not used goes to the front, and octets come behind it.
    pub fn refill(&mut self, file: &[u8], to: usize)
        requires { (to ≤ length file.now) × GoodText file.now self.old.at to × Holds file.now to self.old }
        ensures { Refilled file.now to self.old self.new }
    {
        self.octets.copy_within(self.next..self.have, 0);
        let unused = self.have - self.next;
        let d = octets::decode(file, self.at, to, &mut self.octets, unused);
        let got = (d.end - unused).min(self.left);
        self.at = d.at;
        self.left -= got;
        self.next = 0;
        self.have = unused + got;
    }
}
