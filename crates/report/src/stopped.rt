// Why there is no report, or not all of it.
use text::Unread;

// So many bytes of whole lines were written before.
#[derive(Clone, Copy, PartialEq, Eq, Debug)]
pub struct Stopped {
    pub why: Unread,
    pub written: usize,
}
