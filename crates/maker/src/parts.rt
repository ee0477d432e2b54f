// What stands end to end in a file: the pieces of a stream, the configurations of a dump.
ghost use Rattle.std.specs.Prelude.{◌<◌, ◌≤◌, ◌+◌, ◌-◌, length};
ghost use Rattle.std.specs.Iterator.{at_most};

use std::fmt;

#[derive(Clone, Copy)]
pub enum Kind {
    Piece,
    Configuration,
}

impl Kind {
    fn word(self) -> &'static str {
        match self {
            Kind::Piece => "piece",
            Kind::Configuration => "configuration",
        }
    }

    // No part has fewer bytes.
    fn least(self) -> usize
        ensures { 0 < result }
    {
        match self {
            Kind::Piece => 6,
            Kind::Configuration => 9,
        }
    }

    // How many bytes the part at the start says it has.
    fn size_of(self, rest: &[u8]) -> usize {
        match self {
            Kind::Piece => set_writer::pieces::size_at(rest, 0),
            Kind::Configuration => total_length(rest),
        }
    }

    // Where the part behind the one at the start begins: at the end, where that one does not end.
    fn next(self, rest: &[u8]) -> usize
        requires { 0 < length rest.now }
        ensures { (0 < result) × (result ≤ length rest.now) }
    {
        let size = self.size_of(rest);
        if self.least() <= size && size <= rest.len() {
            return size;
        }
        rest.len()
    }
}

// The wTotalLength of the configuration at the start.
fn total_length(rest: &[u8]) -> usize
    ensures { result < 65536 }
{
    octets::word(rest, 2) as usize
}

// A part: which it is from 1 on, where it begins, and where the next does; what stands from there on, how many bytes it says it has, and whether they are there.
#[derive(Clone, Copy)]
pub struct Part<'a> {
    kind: Kind,
    pub n: usize,
    pub at: usize,
    pub end: usize,
    pub rest: &'a [u8],
    pub size: usize,
    pub whole: bool,
    ghost inside: { (at < end) × (end ≤ at + length rest.now) },
}

impl fmt::Display for Part<'_> {
    fn fmt<W: fmt::Write>(&self, f: &mut fmt::Formatter<W>) -> fmt::Result {
        let word = self.kind.word();
        let n = self.n;
        let at = self.at;
        write!(f, "    {word} {n} at byte {at}")
    }
}

// A walk over the parts of some bytes: how many it gave, and where the next begins.
#[derive(Drop)]
pub struct Walk<'a> {
    kind: Kind,
    bytes: &'a [u8],
    n: usize,
    at: usize,
    ghost counted: { n ≤ at },
}

impl<'a> Iterator for Walk<'a> {
    type Item = Part<'a>;

    ghost remaining = { λ s. at_most (length s.bytes.now - s.at) };

    fn next(&mut self) -> Option<Part<'a>> {
        let kind = self.kind;
        let at = self.at;
        let rest = buffers::tail(self.bytes, at);
        if rest.is_empty() {
            return None;
        }
        let size = kind.size_of(rest);
        let next = kind.next(rest);
        let whole = kind.least() <= size && size == next;
        let n = self.n + 1;
        let end = at + next;
        self.n = n;
        self.at = end;
        Some(Part {
            kind,
            n,
            at,
            end,
            rest,
            size,
            whole,
        })
    }
}

// The parts of some bytes, from a place on. One that does not end is the last.
pub fn parts(kind: Kind, bytes: &[u8], first: usize) -> Walk {
    Walk {
        kind,
        bytes,
        n: 0,
        at: first,
    }
}
