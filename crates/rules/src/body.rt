// The body of an entry.
ghost use Rattle.std.specs.Prelude.{◌<◌, length};

use sets::Entry;
use sets::contents::body_of;

// A body's bytes, and where they begin in the set. An entry gives it a length below 65,536.
#[derive(Clone, Copy)]
pub(crate) struct Body<'a> {
    pub bytes: &'a [u8],
    pub start: u16,
    pub ghost short: { length bytes.now < 65536 },
}

impl<'a> Body<'a> {
    ghost use Rattle.std.specs.Prelude.{◌≡◌};
    ghost use Rattle.sets.specs.Contents.{body_of};

    // The body that an entry names.
    pub(crate) fn of(set: &'a [u8], e: Entry) -> Body<'a>
        ensures bytes { result.bytes.now ≡ body_of set.now e }
        ensures start { result.start ≡ e.offset }
    {
        Body {
            bytes: body_of(set, e),
            start: e.offset,
        }
    }
}
