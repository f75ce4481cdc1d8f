// A register: empty, open or closed.
ghost use Rattle.std.specs.Prelude.{◌≤◌};

use crate::book::Book;
use crate::terms::Terms;

// It is empty while it has no dates, and closed after its last period. Contracts see it by `view_of` and its day count, and
// not by a `Model`: what is seen of it says nothing of the day count, which every rule and law needs.
#[derive(Drop)]
pub struct Register<D> {
    pub(crate) basis: D,
    pub(crate) terms: Terms,
    pub(crate) book: Book,
    pub(crate) holders: usize,
    pub(crate) today: u32,
    ghost few: { holders ≤ 16 },
}
