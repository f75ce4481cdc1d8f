// How many lines of a file were held to the library, and on how many the two differ.
ghost use Rattle.std.specs.Prelude.{◌≡◌, ◌+◌, ◌-◌, ◌^◌, min, if◌then◌else◌, nat_eq};

#[derive(Clone, Copy, Default)]
pub struct Tally {
    pub lines: u64,
    differing: u64,
}

impl Tally {
    // One more line. No file reaches the largest number, so that the counts are exact.
    pub fn count(&mut self, agrees: bool)
        ensures lines { self.new.lines ≡ min (self.old.lines + 1) (2 ^ 64 - 1) }
        ensures differing { self.new.differing ≡ (if agrees then self.old.differing else min (self.old.differing + 1) (2 ^ 64 - 1)) }
    {
        self.lines = self.lines.saturating_add(1);
        if !agrees {
            self.differing = self.differing.saturating_add(1);
        }
    }

    // A file without lines shows nothing, so that it counts as a difference.
    pub fn differences(&self) -> u64
        ensures { result ≡ (if nat_eq self.now.lines 0 then 1 else self.now.differing) }
    {
        if self.lines == 0 { 1 } else { self.differing }
    }
}
