// A line of the table: a row of the register, and the two sides of the interest equation.
ghost use Rattle.std.specs.Prelude.{◌≡◌, ◌+◌, ◌-◌, ◌^◌, min, ◌==◌};
ghost use Rattle.register.specs.Rows.{worth};
ghost use Rattle.register.specs.Rules.{unit};

use crate::journal::Account;
use counts::DayCount;
use register::Row;

#[derive(Clone, Copy)]
pub struct Line {
    pub row: Row,
    pub left: u128,
    pub right: u128,
}

impl Line {
    pub fn new<D: DayCount>(basis: &D, row: &Row, account: Account) -> Line
        ensures row { result.row ≡ row.now }
        ensures left { result.left ≡ worth (unit D.per) row.now }
        ensures right { result.right ≡ account.interest }
    {
        Line {
            row: *row,
            left: row.worth(basis),
            right: account.interest,
        }
    }

    // A line to add others to, with the right side of an account of its own.
    pub fn total(account: Account) -> Line
        ensures { (result.left ≡ 0) × (result.right ≡ account.interest) }
    {
        Line {
            row: Row::default(),
            left: 0,
            right: account.interest,
        }
    }

    // Adds a line to a total, but for the right side. No bound on the rows is needed for sums that stop at the largest
    // number; those of a register do not come near it.
    pub fn add(&mut self, line: &Line)
        ensures left { self.new.left ≡ min (self.old.left + line.now.left) (2 ^ 128 - 1) }
        ensures right { self.new.right ≡ self.old.right }
    {
        self.row.holding = self.row.holding.saturating_add(line.row.holding);
        self.row.paid = self.row.paid.saturating_add(line.row.paid);
        self.row.due = self.row.due.saturating_add(line.row.due);
        self.row.ticks = self.row.ticks.saturating_add(line.row.ticks);
        self.left = self.left.saturating_add(line.left);
    }

    pub fn is_balanced(&self) -> bool
        ensures { result ≡ (self.now.left == self.now.right) }
    {
        self.left == self.right
    }
}
