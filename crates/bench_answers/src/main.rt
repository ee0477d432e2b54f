// What the library answers to every record of standard input: an operation (1 byte), the sizes of a heading (1), of a serial block, of what is
// given and of what is to come out or, on a board, of what happens (2 each), the buffer's length (2), and these four. The heading is written
// as it stands, and behind it the answer. tests/programs/benched.py has the form of a record; tests/programs/lay_out, take_apart, dumps, trims, runs and replay
// make the records.
#![tactic(auto)]

ghost use Rattle.std.specs.Prelude.{◌≤◌, IfOk, IfSome, vec_len};

mod buffer;
mod explain;
mod makers;
mod replay;
mod report;
mod runs;
mod words;

use std::alloc::{AllocError, Global};
use std::io;
use std::io::Read;

// The operations, each by its letter; a heading alone has none.
fn work<'a>(
    rt: &impl Print,
    operation: u8,
    serial: &'a [u8],
    given: &'a [u8],
    wanted: &[u8],
    out: &mut Vec<u8>,
) -> io::Result<()> {
    match operation {
        b'l' => makers::list(rt, given, serial, descriptors::limits::full_speed(), out),
        b's' => makers::list(rt, given, serial, descriptors::limits::super_speed(), out),
        b'w' => makers::write(rt, serial, given, wanted, out),
        b'i' => makers::import(rt, given, wanted, out),
        b'e' => makers::export(rt, serial, given, wanted, out),
        b't' => makers::trim(rt, serial, given, wanted, out),
        b'r' => runs::run(rt, given, serial, wanted),
        b'p' => replay::replay(rt, given, serial, wanted),
        _ => Ok(()),
    }
}

// A record begins with its operation and its sizes.
const HEAD: usize = 10;

// No record is longer, so that a damaged one takes no more memory.
const LONGEST_RECORD: usize = 65536;

// No more records are read than that, so that the program ends whatever it is given.
const MOST_RECORDS: u32 = 1000000;

// Does what a record asks. One buffer is lent for all records: large ones, made for each, went back to the system and were asked of it anew.
fn run(rt: &impl Print, question: &[u8], out: &mut Vec<u8>) -> io::Result<()> {
    let serial_at = HEAD + octets::peek(question, 1) as usize;
    let given_at = serial_at + octets::word(question, 2) as usize;
    let wanted_at = given_at + octets::word(question, 4) as usize;
    let end = wanted_at + octets::word(question, 6) as usize;
    let room = octets::word(question, 8) as usize;
    if question.len() < end {
        return Ok(());
    }
    rt.write_all(&question[HEAD..serial_at])?;
    buffer::refill(out, room)?;
    work(
        rt,
        octets::peek(question, 0),
        &question[serial_at..given_at],
        &question[given_at..wanted_at],
        &question[wanted_at..end],
        out,
    )
}

// A record's size, by its head.
fn size_of(head: &[u8; HEAD]) -> usize
    ensures { 10 ≤ result }
{
    HEAD + octets::peek(head, 1) as usize
        + octets::word(head, 2) as usize
        + octets::word(head, 4) as usize
        + octets::word(head, 6) as usize
}

// Reads the next record; there is none at the stream's end, and where a record is cut short or too long.
fn read_question(alloc: Global, input: &mut impl Read) -> Result<Option<Vec<u8>>, AllocError>
    ensures { IfOk result (λ found. IfSome found (λ question. vec_len question ≤ 65536)) }
{
    let mut head = [0u8; HEAD];
    if input.read_exact(&mut head).is_err() {
        return Ok(None);
    }
    let size = size_of(&head);
    if LONGEST_RECORD < size {
        return Ok(None);
    }
    let mut question = vec![in alloc; 0; size]?;
    question[..HEAD].copy_from_slice(&head);
    if input.read_exact(&mut question[HEAD..]).is_err() {
        return Ok(None);
    }
    Ok(Some(question))
}

fn main(rt: HostRuntime) -> io::Result<()> {
    let mut input = rt.reader();
    let mut out = Vec::new(rt.alloc());
    for _ in 0..MOST_RECORDS {
        let Some(question) = read_question(rt.alloc(), &mut input)? else {
            break;
        };
        run(&rt, &question, &mut out)?;
    }
    Ok(())
}
