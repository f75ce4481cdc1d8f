// The fields of a line, one after another.
ghost use Rattle.std.specs.Prelude.{◌≡◌, ◌+◌, ◌^◌, ◌<◌, ◌≤◌, length};
ghost use Rattle.text.specs.Cuts.{words};
ghost use Rattle.text.specs.Fields.{none_left};
ghost use Rattle.text.specs.Left.{left, ended_at, ending, Taken, ReadsField};

use crate::at::At;
use crate::fault::Fault;
use crate::fields::Fields;
use crate::finding::split_once;
use crate::kind::Kind;
use crate::place::Place;
use days::Refusal;

impl<'a> Fields<'a> {
    pub(crate) fn of_line(line: &'a [u8], number: u32) -> Fields<'a>
        requires { length line.now ≤ 65536 }
        ensures words { left result ≡ words 1 line.now }
        ensures place { ending result ≡ ended_at number line.now }
    {
        Fields {
            place: Place::of_line(number),
            rest: Some(line),
        }
    }

    pub(crate) fn next_word(&mut self) -> Result<At<&'a [u8]>, Fault>
        ensures taken { Taken (ending self.old) (left self.old) result (left self.new) }
        ensures same_line { ending self.new ≡ ending self.old }
    {
        let place = self.place;
        let Some(rest) = self.rest else {
            return Err(place.refuses(Refusal::BadField));
        };
        let (word, width, later) = match split_once(rest, b' ') {
            Some((word, later)) => (word, word.len() + 1, Some(later)),
            None => (rest, rest.len(), None),
        };
        // Field by field, since a whole struct is put together anew for each word.
        self.rest = later;
        self.place = place.further(width);
        Ok(place.holds(word))
    }

    // What the next word says; a word that says nothing is a bad field.
    // Inlined, so that how far the line is read is kept in registers.
    #[inline(always)]
    pub(crate) fn next_field<K: Kind>(&mut self) -> Result<At<K::Said>, Fault>
        ensures read { ReadsField K.says (ending self.old) (left self.old) result (left self.new) }
        ensures same_line { ending self.new ≡ ending self.old }
    {
        let word = self.next_word()?;
        let place = word.place();
        K::said(word.value)
            .map(|said| place.holds(said))
            .ok_or(place.refuses(Refusal::BadField))
    }

    // No word is left over.
    pub(crate) fn end(&self) -> Result<(), Fault>
        ensures { result ≡ none_left (ending self.now) (left self.now) }
    {
        match self.rest {
            Some(_) => Err(self.place.refuses(Refusal::BadField)),
            None => Ok(()),
        }
    }
}
