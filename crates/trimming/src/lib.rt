// Trimming: the strings of a set that nothing names are dropped, in the set's own buffer.
#![tactic(auto)]

ghost use Rattle.std.specs.Prelude.{◌≡◌, true, map, ◌+◌, ◌-◌, ◌<◌, ◌≤◌, length, replicate};
ghost use Rattle.octets.specs.Sentences.{only};
ghost use Rattle.sets.specs.Broken.{opened_number};
ghost use Rattle.sets.specs.Contents.{entries, bodies_at, end_to_end, good_frame};
ghost use Rattle.set_writer.specs.Writer.{laid};
ghost use Rattle.sets.specs.Pieces.{piece_for};
ghost use Rattle.buffers.specs.Written.{Room, Wrote};
ghost use Rattle.trimming.specs.Keeping.{keeps_by};
ghost use Rattle.trimming.specs.Entries.{contents_with, lengths, bodies_with};
ghost use Rattle.trimming.specs.Trim.{zero_filled, Trims};

use crate::keeping::Keeping;
use buffers::Writer;
use descriptors::limits::Limits;
use set_writer::layout;
use sets::Entry;
use sets::contents::entry_at;
use sets::opening::Broken;

mod keeping;

// The bytes before the bodies of a set with the most entries.
const LONGEST_FRONT: usize = 4 + 8 * set_writer::MOST_ENTRIES;

// How many entries stay.
fn count_kept(contents: &[u8], keeping: &Keeping) -> usize
    ensures { result ≡ length (only (keeps_by keeping.now.names keeping.now.zero) (entries contents.now)) }
{
    let count = octets::peek(contents, 2);
    let mut n: usize = 0;
    for i in 0..count {
        let e = entry_at(contents, i);
        if keeping.keeps(e) {
            n += 1;
        }
    }
    n
}

// The entries that stay; the first body is to begin at `start`, each next where the last ends.
fn put_contents(w: &mut Writer<'_>, contents: &[u8], keeping: &Keeping, start: usize)
    requires room { Room w.old (contents_with start (only (keeps_by keeping.now.names keeping.now.zero) (entries contents.now))) }
    requires contents_bound { start + lengths (only (keeps_by keeping.now.names keeping.now.zero) (entries contents.now)) < 65536 }
    ensures { Wrote w.old (contents_with start (only (keeps_by keeping.now.names keeping.now.zero) (entries contents.now))) w.new }
{
    let count = octets::peek(contents, 2);
    let mut offset = start;
    for i in 0..count {
        let e = entry_at(contents, i);
        if keeping.keeps(e) {
            layout::put_entry(
                w,
                Entry {
                    offset: offset as u16,
                    ..e
                },
            );
            offset += e.length as usize;
        }
    }
}

// The bodies that stay, moved down over what goes; `contents` is what the set's contents were.
fn put_bodies(w: &mut Writer<'_>, contents: &[u8], keeping: &Keeping)
    requires at_bound { w.old.at ≤ bodies_at contents.now }
    requires contents_value { end_to_end (bodies_at contents.now) (length w.old.out.now) (entries contents.now) ≡ true }
    ensures { Wrote w.old (bodies_with w.old.out.now (only (keeps_by keeping.now.names keeping.now.zero) (entries contents.now))) w.new }
{
    let count = octets::peek(contents, 2);
    let mut from = 4 + 8 * (count as usize);
    for i in 0..count {
        let e = entry_at(contents, i);
        let end = from + e.length as usize;
        if keeping.keeps(e) {
            w.out.copy_within(from..end, w.at);
            w.at += e.length as usize;
        }
        from = end;
    }
}

// Zeros to the buffer's end.
fn put_zeros(w: &mut Writer<'_>)
    requires { w.old.at ≤ length w.old.out.now }
    ensures { Wrote w.old (replicate (length w.old.out.now - w.old.at) 0) w.new }
{
    w.out[w.at..].fill(0);
    w.at = w.out.len();
}

// The set anew, with the entries that stay.
fn rebuild(set: &mut [u8], keeping: &Keeping)
    requires set_value { good_frame set.old ≡ true }
    requires set_value_2 { end_to_end (bodies_at set.old) (length set.old) (entries set.old) ≡ true }
    ensures { set.new ≡ zero_filled (laid (map (piece_for set.old) (only (keeps_by keeping.now.names keeping.now.zero) (entries set.old)))) (length set.old) }
{
    let front = 4 + 8 * (octets::peek(set, 2) as usize);
    let mut contents = [0u8; LONGEST_FRONT];
    contents[..front].copy_from_slice(&set[..front]);
    let count = count_kept(&contents, keeping);
    let mut w = Writer { out: set, at: 4 };
    put_contents(&mut w, &contents, keeping, 4 + 8 * count);
    put_bodies(&mut w, &contents, keeping);
    let end = w.at;
    put_zeros(&mut w);
    w.at = 0;
    layout::put_header(&mut w, end, count);
}

// The set without the strings that nothing names, in its own buffer; one that does not open is as it was.
pub fn trim(set: &mut [u8], serial: &[u8], limits: Limits) -> Result<(), Broken>
    ensures { Trims limits set.old serial.now set.new (opened_number result) }
{
    sets::opening::opening(set, serial, limits)?;
    let keeping = Keeping::of(set);
    rebuild(set, &keeping);
    Ok(())
}
