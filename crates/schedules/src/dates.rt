// The dates of a deal before they are rolled: the start, the counted dates strictly between, and the end.
ghost use Rattle.std.specs.Prelude.{◌≡◌, ◌+◌, ◌≤◌, length, slice_index};
ghost use Rattle.schedules.specs.Dates.{Sound, most_dates, counted, steps, is_inside, inner, dates};

use crate::deal::{Deal, Stub};
use crate::months::{month_and_day, on_day};

// A deal whose term and months are good, so that its dates can be counted.
#[derive(Clone, Copy)]
pub(crate) struct SoundDeal {
    pub(crate) deal: Deal,
    ghost sound: { Sound deal },
}

impl Deal {
    fn encloses(&self, date: u32) -> bool
        ensures { result ≡ is_inside self.now date }
    {
        self.start < date && date < self.end
    }
}

impl SoundDeal {
    // How often the months go into those of the term.
    fn steps(&self) -> u32
        ensures { result ≡ steps self.now.deal }
    {
        let (first, _) = month_and_day(self.deal.start);
        let (last, _) = month_and_day(self.deal.end);
        (last - first) / self.deal.months as u32
    }

    // The date that is `times` the months from the end, or from the start: each of the two stubs counts in its own direction,
    // here and below.
    fn counted(&self, times: u32) -> u32
        requires { times ≤ steps self.now.deal }
        ensures { result ≡ counted self.now.deal times }
    {
        let distance = times * self.deal.months as u32;
        match self.deal.stub {
            Stub::ShortFirst => {
                let (month, day) = month_and_day(self.deal.end);
                on_day(month - distance, day)
            }
            Stub::ShortLast => {
                let (month, day) = month_and_day(self.deal.start);
                on_day(month + distance, day)
            }
        }
    }

    // How many counted dates lie strictly between start and end: all steps, or all but the last.
    pub(crate) fn inside(&self) -> u32
        ensures { result ≡ length (inner self.now.deal) }
    {
        let steps = self.steps();
        if steps > 0 && !self.deal.encloses(self.counted(steps)) {
            steps - 1
        } else {
            steps
        }
    }

    // How many dates there are, with the start and the end.
    pub(crate) fn count(&self) -> usize
        ensures value { result ≡ length (dates self.now.deal) }
        ensures few { result ≤ most_dates }
    {
        self.inside() as usize + 2
    }

    // The date at an index, of a deal with so many dates inside.
    pub(crate) fn date_at(&self, inside: u32, index: u32) -> u32
        requires inside { inside ≡ length (inner self.now.deal) }
        requires within { index ≤ inside + 1 }
        ensures { result ≡ slice_index (dates self.now.deal) index }
    {
        if index == 0 {
            return self.deal.start;
        }
        if index > inside {
            return self.deal.end;
        }
        match self.deal.stub {
            Stub::ShortFirst => self.counted(inside + 1 - index),
            Stub::ShortLast => self.counted(index),
        }
    }
}
