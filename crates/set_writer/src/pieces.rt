// A stream of pieces end to end: type, index, language, length, body.
ghost use Rattle.std.specs.Prelude.{◌≡◌, ◌+◌, drop};
ghost use Rattle.octets.specs.Octets.{word};
ghost use Rattle.set_writer.specs.Writer.{piece_of};
ghost use Rattle.set_writer.specs.Places.{count_of};

// How many bytes the piece at a place says it has.
pub fn size_at(stream: &[u8], at: usize) -> usize
    ensures { result ≡ 6 + word (drop at stream.now) 4 }
{
    6 + octets::word(buffers::tail(stream, at), 4) as usize
}

// The body of the piece at a place; the part of it that is there.
pub fn body_at(stream: &[u8], at: usize) -> &[u8]
    ensures { result.now ≡ (piece_of (drop at stream.now)).body }
{
    let rest = buffers::tail(stream, at);
    let size = octets::word(rest, 4) as usize;
    buffers::head(buffers::tail(rest, 6), size)
}

// How many pieces the stream has, if it ends where its lengths say.
pub fn count_pieces(stream: &[u8]) -> Option<usize>
    ensures { result ≡ count_of stream.now }
{
    let mut n = 0;
    let mut at = 0;
    while at < stream.len() {
        let size = size_at(stream, at);
        if stream.len() - at < size {
            return None;
        }
        at += size;
        n += 1;
    }
    Some(n)
}
