// An answer's number, bytes and part.
ghost use Rattle.std.specs.Prelude.{◌≡◌, ◌+◌, length};
ghost use Rattle.octets.specs.Octets.{byte};
ghost use Rattle.events.specs.Answer.{number_of, bytes_of, part_of, in_block, Inside, bytes_in};
ghost use Rattle.events.specs.Coded.{answer_in};

use crate::Answer;

// Document 01's number.
pub fn number(answer: Answer) -> u8
    ensures { result ≡ number_of (answer_in answer) }
{
    match answer {
        Answer::Refused(number) => number,
        _ => 0,
    }
}

// The bytes handed back: how many, and the first and the second, or 0.
// Kept: hk_setup hands C the count and both bytes, so that here, too, they stand beside each other.
#[derive(Clone, Copy)]
pub struct Handed {
    pub count: u8,
    pub first: u8,
    pub second: u8,
}

fn hands(count: u8, first: u8, second: u8) -> Handed
    ensures { result ≡ record { count = count; first = first; second = second } }
{
    Handed {
        count,
        first,
        second,
    }
}

pub fn bytes_of(answer: Answer) -> Handed
    ensures { result ≡ record { count = length (bytes_of (answer_in answer)); first = byte (bytes_of (answer_in answer)) 0; second = byte (bytes_of (answer_in answer)) 1 } }
{
    match answer {
        Answer::OneByte(first) => hands(1, first, 0),
        Answer::TwoBytes(first, second) => hands(2, first, second),
        _ => hands(0, 0, 0),
    }
}

// The part of the set in use or of the serial block, and no copy; for an answer without one, the first set's first 0 bytes.
pub fn part<'a>(first: &'a [u8], used: &'a [u8], serial: &'a [u8], answer: Answer) -> &'a [u8]
    requires { Inside first.now used.now serial.now (part_of (answer_in answer)) }
    ensures bytes { result.now ≡ bytes_in first.now used.now serial.now (part_of (answer_in answer)) }
    ensures block { result.ref_ptr.0 ≡ in_block first.entry.ref_ptr.0 used.entry.ref_ptr.0 serial.entry.ref_ptr.0 (part_of (answer_in answer)).block }
    ensures offset { result.ref_ptr.1 ≡ in_block first.entry.ref_ptr.1 used.entry.ref_ptr.1 serial.entry.ref_ptr.1 (part_of (answer_in answer)).block + (part_of (answer_in answer)).offset }
{
    match answer {
        Answer::SetPart { offset, length } => {
            let start = offset as usize;
            &used[start..start + length as usize]
        }
        Answer::SerialPart { length } => &serial[0..length as usize],
        _ => &first[0..0],
    }
}
