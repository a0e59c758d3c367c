// Lines of text laid into lent memory: decimal numbers parted by blanks.
#![tactic(auto)]

ghost use Rattle.std.specs.Prelude.{◌∷◌, [], ◌+◌, ◌<◌, ◌≤◌, length};
ghost use Rattle.text.specs.Text.{decimal_of, blank};

// Lent memory of any length, and the place in it at which the next piece of text goes.
#[derive(Drop)]
pub struct Page<'a> {
    pub out: &'a mut [u8],
    pub at: usize,
}

impl Page<'_> {
    ghost use Rattle.text.specs.Pages.{Puts};

    // One octet.
    pub fn octet(&mut self, x: u8)
        requires { self.old.at < length self.old.out.now }
        ensures { Puts (x ∷ []) self.old self.new }
    {
        self.out[self.at] = x;
        self.at += 1;
    }

    // Octets.
    #[tactic(auto, using(octets::proofs::Laid::length_laid))]
    pub fn words(&mut self, x: &[u8])
        requires { self.old.at + length x.now ≤ length self.old.out.now }
        ensures { Puts x.now self.old self.new }
    {
        octets::copy_into(x, self.out, self.at);
        self.at += x.len();
    }

    // A number in decimal digits. A number of 64 bits has 20 of them at most.
    pub fn number(&mut self, n: u64)
        requires { self.old.at + 20 ≤ length self.old.out.now }
        ensures { Puts (decimal_of n) self.old self.new }
    {
        let mut digits = [0u8; 20];
        let k = io::decimal(n, &mut digits);
        self.words(&digits[..k]);
    }

    // A blank and a number.
    pub fn next_number(&mut self, n: u64)
        requires { self.old.at + 21 ≤ length self.old.out.now }
        ensures { Puts (blank ∷ decimal_of n) self.old self.new }
    {
        self.octet(b' ');
        self.number(n);
    }
}
