// Bytes put behind a draft. What a draft has no room for is cut off.
ghost use Rattle.std.specs.Prelude.{◌≡◌, [], ◌∷◌, ◌++◌, ◌≤◌, length, take};

use crate::draft::Draft;
use shortlist::ShortList;

impl Draft {
    // An empty line.
    pub fn new() -> Draft
        ensures { result ≡ [] }
    {
        Draft {
            bytes: ShortList::new(),
        }
    }

    // The bytes of the line, at most 128.
    pub fn bytes(&self) -> &[u8]
        ensures value { result.now ≡ self.now }
        ensures few { length result.now ≤ 128 }
    {
        self.bytes.as_slice()
    }

    pub fn push(&mut self, byte: u8)
        ensures { self.new ≡ take 128 (self.old ++ (byte ∷ [])) }
    {
        let _ = self.bytes.push(byte);
    }

    pub fn word(&mut self, bytes: &[u8])
        ensures { self.new ≡ take 128 (self.old ++ bytes.now) }
    {
        // Read for what it promises: a draft is never longer than its buffer.
        let _ = &self.bytes;
        for byte in bytes {
            self.push(*byte);
        }
    }
}
