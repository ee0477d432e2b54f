// What the references of a set are judged by.
ghost use Rattle.rules.specs.Judges.{Judges};

use crate::languages::in_every_language;
use crate::{Fault, Place};
use octets::table::holds;
use sets::device::serial_index;

// Kept: `there` is a fact of the set that rule 510 asks for, and says of no other field whether it counts.
// The set, whether its string 0 is there, its iSerialNumber, and the indices that have a string in every listed language.
#[derive(Clone, Copy)]
pub(crate) struct Judge<'a> {
    pub set: &'a [u8],
    pub there: bool,
    pub serial: u8,
    pub table: [u32; 8],
    pub ghost judges: { Judges set.now there serial table },
}

impl<'a> Judge<'a> {
    ghost use Rattle.std.specs.Prelude.{◌≡◌, drop};
    ghost use Rattle.octets.specs.Sentences.{is_some};
    ghost use Rattle.sets.specs.Strings.{words, string_zero, languages};
    ghost use Rattle.rules.specs.Strings.{reference_findings};
    ghost use Rattle.rules.specs.After.{first_of};

    // `zero` is string 0.
    pub(crate) fn of(set: &'a [u8], zero: &[u8], there: bool) -> Judge<'a>
        requires listed { words (drop 2 zero.now) ≡ languages set.now }
        requires found { there ≡ is_some (string_zero set.now) }
        ensures { result.set.now ≡ set.now }
    {
        Judge {
            set,
            there,
            serial: serial_index(set),
            table: in_every_language(set, zero),
        }
    }

    // A reference, which is byte k of what begins at a place.
    pub(crate) fn ask(&self, place: Place, k: u8, reference: u8) -> Option<Fault>
        ensures { result ≡ first_of (reference_findings self.now.set.now place.start place.at k reference) }
    {
        let named = (reference == 0) | (reference == self.serial) | holds(&self.table, reference);
        place
            .ask(510, k, !(1 <= reference) | self.there)
            .or(place.ask(512, k, named))
    }
}
