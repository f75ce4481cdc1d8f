// What fills a place that is not in use.
ghost use Rattle.std.specs.Prelude.{◌≡◌, pos};

// A type with one value that says nothing.
pub trait Blank: Copy {
    ghost blank: { Self };

    fn blank() -> Self
        ensures { result ≡ blank };
}

impl Blank for u8 {
    ghost blank = { 0 };

    fn blank() -> u8 {
        0
    }
}

impl Blank for u32 {
    ghost blank = { 0 };

    fn blank() -> u32 {
        0
    }
}

impl Blank for u64 {
    ghost blank = { 0 };

    fn blank() -> u64 {
        0
    }
}

impl Blank for i32 {
    ghost blank = { pos 0 };

    fn blank() -> i32 {
        0
    }
}
