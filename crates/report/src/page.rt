// A buffer that the caller lent, with whole lines at its front.
ghost use Rattle.std.specs.Prelude.{◌≡◌, [], ◌∷◌};
ghost use Rattle.report.specs.Pages.{LaidOn};

use writing::{Draft, Full, lay};

#[derive(Drop)]
pub(crate) struct Page<'a> {
    pub(crate) out: &'a mut [u8],
    pub(crate) written: usize,
}

impl<'a> Page<'a> {
    pub(crate) fn new(out: &'a mut [u8]) -> Page<'a>
        ensures same_buffer { result.out.ghost_name ≡ out.entry.ghost_name }
        ensures bytes { result.out.now ≡ out.old }
        ensures none { result.written ≡ 0 }
    {
        Page { out, written: 0 }
    }

    // Lays a line behind the others.
    pub(crate) fn lay(&mut self, line: &Draft) -> Result<(), Full>
        ensures { LaidOn (line.now ∷ []) self.old result self.new }
    {
        self.written = lay(line, self.out, self.written)?;
        Ok(())
    }
}
