// The set of some pieces, laid out in a lent buffer: header, contents, bodies.
ghost use Rattle.std.specs.Prelude.{◌≡◌, ◌+◌, ◌/◌, ◌%◌, ◌<◌, [], ◌∷◌, length};
ghost use Rattle.buffers.specs.Written.{Room, Wrote};
ghost use Rattle.set_writer.specs.Writer.{entry_for, contents, body_bytes, front, laid_length, laid};
ghost use Rattle.set_writer.specs.Places.{piece_at, pieces_at, bytes_of};

use buffers::Writer;
use sets::Entry;

// The header of a set of `size` bytes.
pub fn put_header(w: &mut Writer<'_>, size: usize, count: usize)
    requires room { Room w.old (size % 256 ∷ size / 256 ∷ count ∷ 0 ∷ []) }
    requires size_bound { size < 65536 }
    requires count_bound { count < 256 }
    ensures { Wrote w.old (size % 256 ∷ size / 256 ∷ count ∷ 0 ∷ []) w.new }
{
    w.put_word(size as u16);
    w.put(count as u8);
    w.put(0);
}

// One entry of the contents.
pub fn put_entry(w: &mut Writer<'_>, e: Entry)
    requires { Room w.old (bytes_of e) }
    ensures { Wrote w.old (bytes_of e) w.new }
{
    w.put(e.kind);
    w.put(e.index);
    w.put_word(e.language);
    w.put_word(e.offset);
    w.put_word(e.length);
}

// The entry for the piece at a place of the stream, whose body is to begin at an offset.
fn entry_for(stream: &[u8], from: usize, offset: usize) -> Entry
    requires { offset + length (piece_at stream.now from).body < 65536 }
    ensures { result ≡ entry_for (piece_at stream.now from) offset }
{
    let rest = buffers::tail(stream, from);
    let size = crate::pieces::body_at(stream, from).len();
    Entry {
        kind: octets::peek(rest, 0),
        index: octets::peek(rest, 1),
        language: octets::word(rest, 2),
        offset: offset as u16,
        length: size as u16,
    }
}

// The entries of the pieces at these places; each body begins where the last one ends.
fn put_contents(w: &mut Writer<'_>, stream: &[u8], places: &[usize])
    requires room { Room w.old (contents (front (pieces_at stream.now places.now)) (pieces_at stream.now places.now)) }
    requires places_bound { laid_length (pieces_at stream.now places.now) < 65536 }
    ensures { Wrote w.old (contents (front (pieces_at stream.now places.now)) (pieces_at stream.now places.now)) w.new }
{
    let mut offset = 4 + 8 * places.len();
    for from in places {
        let e = entry_for(stream, *from, offset);
        put_entry(w, e);
        offset += e.length as usize;
    }
}

// The bodies of the pieces at these places.
fn put_bodies(w: &mut Writer<'_>, stream: &[u8], places: &[usize])
    requires { Room w.old (body_bytes (pieces_at stream.now places.now)) }
    ensures { Wrote w.old (body_bytes (pieces_at stream.now places.now)) w.new }
{
    for from in places {
        w.put_bytes(crate::pieces::body_at(stream, *from));
    }
}

// The whole set, of `size` bytes.
pub fn lay(w: &mut Writer<'_>, stream: &[u8], places: &[usize], size: usize)
    requires room { Room w.old (laid (pieces_at stream.now places.now)) }
    requires size_value { size ≡ laid_length (pieces_at stream.now places.now) }
    requires size_bound { size < 65536 }
    requires places_len_bound { length places.now < 256 }
    ensures { Wrote w.old (laid (pieces_at stream.now places.now)) w.new }
{
    put_header(w, size, places.len());
    put_contents(w, stream, places);
    put_bodies(w, stream, places);
}
