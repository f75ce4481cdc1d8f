// Numbers, with no needless zero in front.
ghost use Rattle.std.specs.Prelude.{◌≡◌, ◌++◌, take, decimal};

use crate::draft::Draft;

impl Draft {
    pub fn number(&mut self, n: u64)
        ensures { self.new ≡ take 128 (self.old ++ decimal n) }
    {
        self.digits(n);
    }

    // The digits in front of the last one are the digits of the tenth.
    fn digits(&mut self, n: u64)
        ensures { self.new ≡ take 128 (self.old ++ decimal n) }
    {
        if n > 9 {
            self.digits(n / 10);
        }
        self.push(b'0' + (n % 10) as u8);
    }
}
