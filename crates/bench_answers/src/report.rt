// The lines of the report.
use crate::explain;
use crate::words::print_bytes;
use events::{Answer, reply};
use sets::opening::Broken;
use std::io;

// How a recorded transfer went: its data or status stage ended well, or it was stalled. The last is no recorded transfer: it brings the
// record to where the recording begins.
#[derive(Clone, Copy, PartialEq, Eq)]
pub enum How {
    Ended,
    Stalled,
    Unrecorded,
}

impl From<u8> for How {
    fn from(byte: u8) -> How {
        match byte {
            1 => How::Stalled,
            2 => How::Unrecorded,
            _ => How::Ended,
        }
    }
}

// A transfer as it was recorded, and as it is answered: the number and the bytes.
// Kept: a number and no Refusal, since an answer holds a number.
#[derive(Clone, Copy)]
pub struct Transfer<'a> {
    pub setup: &'a [u8],
    pub how: How,
    pub recorded: &'a [u8],
    pub number: u8,
    pub ours: &'a [u8],
}

// As many bytes as a device descriptor has.
const SHOWN: usize = 18;

pub fn opened(rt: &impl Print, opening: Result<(), Broken>) -> io::Result<()> {
    match sets::opening::number(opening) {
        0 => println!(rt; "accepted"),
        number => println!(rt; "refused {number}"),
    }
}

// The setup bytes and our answer: the number, how many bytes, and the bytes.
fn answered(rt: &impl Print, transfer: Transfer) -> io::Result<()> {
    let number = transfer.number;
    print_bytes(rt, transfer.setup, SHOWN)?;
    print!(rt; " -> {number}")?;
    let ours = transfer.ours;
    if !ours.is_empty() {
        let count = ours.len();
        print!(rt; ", {count} bytes ")?;
        print_bytes(rt, ours, SHOWN)?;
    }
    Ok(())
}

// Whether the device answered the same: the same bytes, or a refusal as well.
fn is_same(transfer: Transfer) -> bool {
    if transfer.how == How::Stalled {
        return transfer.number != 0;
    }
    transfer.number == 0 && transfer.ours == transfer.recorded
}

fn compared(rt: &impl Print, transfer: Transfer) -> io::Result<()> {
    if transfer.how == How::Unrecorded {
        return println!(rt; ": before the recording");
    }
    if is_same(transfer) {
        return println!(rt; ": same");
    }
    let reason = explain::reason(transfer);
    println!(rt; ": differs: {reason}")
}

// The line of a transfer: our answer is the bytes handed back, or else the part.
pub fn print_transfer<'a>(
    rt: &impl Print,
    setup: &'a [u8],
    answer: Answer,
    part: &'a [u8],
    how: How,
    recorded: &'a [u8],
) -> io::Result<()> {
    let handed = reply::bytes_of(answer);
    let bytes = [handed.first, handed.second];
    let ours = match handed.count {
        0 => part,
        count => buffers::head(&bytes, count as usize),
    };
    let transfer = Transfer {
        setup,
        how,
        recorded,
        number: reply::number(answer),
        ours,
    };
    answered(rt, transfer)?;
    compared(rt, transfer)
}
