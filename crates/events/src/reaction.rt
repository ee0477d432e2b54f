// What an event answers, beside what it changes.
ghost use Rattle.std.specs.Prelude.{◌≡◌, true, false};
ghost use Rattle.records.specs.declared.Change.TheVariants.{Kept};
ghost use Rattle.requests.specs.Refusal.{number_of_refusal};
ghost use Rattle.events.specs.declared.Answer.TheVariants.{Done, Refused};

use crate::{Answer, Refusal};
use records::Change;

// An answer; whether the event is a setup that settles the record; and what else it changes.
#[derive(Clone, Copy)]
pub struct Reaction {
    pub answer: Answer,
    pub settles: bool,
    pub next: Change,
}

pub fn done(next: Change) -> Reaction
    ensures { result ≡ record { answer = Done; settles = false; next = next } }
{
    Reaction {
        answer: Answer::Done,
        settles: false,
        next,
    }
}

// An answer that changes nothing.
pub fn gives(answer: Answer) -> Reaction
    ensures { result ≡ record { answer = answer; settles = false; next = Kept } }
{
    Reaction {
        answer,
        settles: false,
        next: Change::Kept,
    }
}

pub fn refused(refusal: Refusal) -> Reaction
    ensures { result ≡ record { answer = Refused (number_of_refusal refusal); settles = false; next = Kept } }
{
    gives(Answer::Refused(refusal as u8))
}

// The reaction of a settled record, to a setup at the record before.
pub fn settling(reaction: Reaction) -> Reaction
    ensures { result ≡ record { answer = reaction.answer; settles = true; next = reaction.next } }
{
    Reaction {
        settles: true,
        ..reaction
    }
}
