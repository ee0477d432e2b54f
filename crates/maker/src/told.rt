// What a maker is told of a refusal: its number, why, and each piece that stands in the way, counted from 1, with its place in pieces.bin.
use crate::parts::{Kind, Part, parts};
use descriptors::limits::Limits;
use descriptors::types;
use set_writer::{NotWritten, pieces};
use sets::opening::Broken;
use std::io;

// First a refusal's number, and the opening number that says why.
// Kept: both are numbers, 0 for no opening number, since nothing is done with them but that they are printed, as the calls for C give them.
pub fn tell_number(rt: &impl Print, number: u8, opening: u8) -> io::Result<()> {
    print!(rt; "refused {number}")?;
    if opening != 0 {
        print!(rt; ": the opener would refuse the set with {opening}")?;
    }
    println!(rt)
}

// Whether two pieces have the same type, index and language.
fn are_alike(one: Part, other: Part) -> bool {
    octets::word(one.rest, 0) == octets::word(other.rest, 0)
        && octets::word(one.rest, 2) == octets::word(other.rest, 2)
}

// 20: the piece that does not end.
fn tell_broken(rt: &impl Print, piece: Part) -> io::Result<()> {
    if piece.whole {
        return Ok(());
    }
    let size = piece.size;
    let left = piece.rest.len();
    println!(rt; "{piece} should have {size} bytes, and {left} are left")
}

// 21, and no set is made: the first piece that is too much.
fn tell_large(rt: &impl Print, piece: Part) -> io::Result<()> {
    if piece.n == 65 {
        return println!(rt; "{piece} is one too many: a set has at most 64");
    }
    if piece.n < 65 {
        // Where n pieces may end in the stream: each has 6 bytes of its own there, and 8 in the set behind the first 4.
        let room = 16380 - 2 * piece.n;
        if piece.at <= room + 2 && room < piece.end {
            return println!(rt; "{piece} is too much: with it the set has over 16,384 bytes");
        }
    }
    Ok(())
}

// 21, and the opener would say 2: offsets and order are the writer's, so it is the type, the length, or a piece that was there before.
fn tell_entry(rt: &impl Print, limits: Limits, stream: &[u8], piece: Part) -> io::Result<()> {
    if !descriptors::limits::is_named(limits.entries, octets::peek(piece.rest, 0)) {
        let last = if descriptors::limits::is_named(limits.entries, types::BOS) {
            ", 3 and 15"
        } else {
            " and 3"
        };
        println!(rt; "{piece} has a type other than 1, 2{last}")?;
    }
    if pieces::body_at(piece.rest, 0).len() < 2 {
        println!(rt; "{piece} has a body of less than 2 bytes")?;
    }
    match parts(Kind::Piece, stream, 0).find(|other| are_alike(*other, piece)) {
        Some(first) if first.at != piece.at => {
            let at = first.at;
            println!(rt; "{piece} has the type, index and language of the one at byte {at}")
        }
        _ => Ok(()),
    }
}

// 21, and the opener would say 3, 4 or 5: the pieces of that type; of the configurations those that break a rule by themselves.
fn tell_body(rt: &impl Print, limits: Limits, piece: Part, broken: Broken) -> io::Result<()> {
    match (broken, octets::peek(piece.rest, 0)) {
        (Broken::Device, types::DEVICE) => println!(rt; "{piece} is a device"),
        (Broken::Device, types::BOS) => println!(rt; "{piece} is a BOS"),
        (Broken::Strings, types::STRING) => println!(rt; "{piece} is a string"),
        (Broken::Configuration, types::CONFIGURATION) => {
            let body = pieces::body_at(piece.rest, 0);
            let verdict = descriptors::check::good_configuration(body, limits, &[0; 8]);
            if verdict.good {
                return println!(rt; "{piece} is a configuration, good by itself");
            }
            println!(rt; "{piece} is a configuration that breaks a rule by itself")
        }
        _ => Ok(()),
    }
}

fn tell_piece(
    rt: &impl Print,
    limits: Limits,
    stream: &[u8],
    piece: Part,
    why: NotWritten,
) -> io::Result<()> {
    match why {
        NotWritten::PiecesBroken => tell_broken(rt, piece),
        NotWritten::SetRefused(Some(Broken::Contents)) => tell_entry(rt, limits, stream, piece),
        NotWritten::SetRefused(Some(broken)) => tell_body(rt, limits, piece, broken),
        NotWritten::SetRefused(None) | NotWritten::BufferTooShort => tell_large(rt, piece),
    }
}

// What stands in the way of the whole.
fn tell_whole(rt: &impl Print, limits: Limits, why: NotWritten) -> io::Result<()> {
    match why {
        NotWritten::SetRefused(Some(Broken::Device))
            if descriptors::limits::is_named(limits.entries, types::BOS) => {
            println!(rt;
                "    a SuperSpeed set has one device, and one BOS of at least 5 bytes with its length in bytes 2 and 3"
            )
        }
        NotWritten::SetRefused(Some(Broken::Serial)) => {
            println!(rt; "    unit.bin is not the serial block that the device asks for")
        }
        _ => Ok(()),
    }
}

pub fn refused(rt: &impl Print, limits: Limits, stream: &[u8], why: NotWritten) -> io::Result<()> {
    tell_number(rt, why.number(), why.opening())?;
    if stream.is_empty() {
        println!(rt; "    there are no pieces")?;
    }
    tell_whole(rt, limits, why)?;
    for piece in parts(Kind::Piece, stream, 0) {
        tell_piece(rt, limits, stream, piece, why)?;
    }
    Ok(())
}
