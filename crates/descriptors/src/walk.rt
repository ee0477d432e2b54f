// The step over one descriptor: where it ends, and under which setting it stands. Every walk over a body goes by it.
ghost use Rattle.std.specs.Prelude.{◌≡◌, true, ◌≤◌, length};
ghost use Rattle.descriptors.specs.Walk.{stand_in, SetAfter, steps_on, Steps, Advances, Plains};

use crate::types::{CLASS, INTERFACE};

// A setting is one number, bInterfaceNumber + 256 * bAlternateSetting. This is no setting's: where a walk stands before the first interface, so that
// interface 0 is the next.
// Kept: with an Option beside a u16 the walk would keep two values in place of one, and ask at each descriptor which it is.
pub const BEFORE_FIRST: u32 = 65791;

// Where a descriptor stands: under which setting, or (not `inside`) before the first interface.
// Kept: an Option<Setting> is no plainer, since an interface descriptor, which always stands inside, would have to be asked for the setting that it begins.
#[derive(Clone, Copy)]
pub struct Stand {
    pub inside: bool,
    pub interface: u8,
    pub alternate: u8,
}

// One step of a walk: where the descriptor ends, and the setting under which it stands, as the next step takes it and taken apart.
#[derive(Clone, Copy)]
pub struct Step {
    pub end: usize,
    pub setting: u32,
    pub stand: Stand,
}

// The setting under which a descriptor stands that follows one at `last`.
fn setting_after(d: &[u8], last: u32) -> u32
    ensures { SetAfter last d.now result }
{
    if octets::peek(d, 1) == INTERFACE {
        return octets::word(d, 2) as u32;
    }
    last
}

// The same, taken apart.
pub fn stand_in(setting: u32) -> Stand
    ensures { result ≡ stand_in setting }
{
    if setting < 65536 {
        return Stand {
            inside: true,
            interface: (setting % 256) as u8,
            alternate: (setting / 256) as u8,
        };
    }
    Stand {
        inside: false,
        interface: 0,
        alternate: 0,
    }
}

// The step over a whole descriptor at `at`, after one at `last`. Walks take from it alone where a descriptor stands.
pub fn step_over(body: &[u8], at: usize, last: u32) -> Step
    requires { steps_on body.now at ≡ true }
    ensures { Steps body.now at last result }
{
    let end = at + octets::peek(body, at) as usize;
    let setting = setting_after(&body[at..end], last);
    Step {
        end,
        setting,
        stand: stand_in(setting),
    }
}

// The same where nothing is known of the body. No step is taken over a bLength below 2 or past the body's end, where a walk must stop.
pub fn advance(body: &[u8], at: usize, last: u32) -> Option<Step>
    ensures { Advances body.now at last result }
{
    let size = octets::peek(body, at) as usize;
    if size < 2 {
        return None;
    }
    if body.len() <= at {
        return None;
    }
    if body.len() - at < size {
        return None;
    }
    Some(step_over(body, at, last))
}

// Past the descriptors from `from` on that have this length. Where the next one is looked for does not wait for a byte to be read.
fn pass_run(body: &[u8], size: usize, from: usize) -> usize
    requires { (1 ≤ length body.now) × (2 ≤ size) }
    ensures { Plains body.now from result }
{
    if body.len() < size {
        return from;
    }
    let kinds = &body[1..];
    let most = body.len() - size;
    let mut place = from;
    while place <= most {
        if body[place] as usize != size {
            return place;
        }
        if kinds[place] < CLASS {
            return place;
        }
        place += size;
    }
    place
}

// Where a walk goes on that comes to `from`: no walk looks at a type from 8 on, and class descriptors often stand in runs of one length. Two are passed in a turn, so that a run is asked for
// half as often; the types are read from a slice of their own, so that a length is read without an address being worked out.
pub fn behind(body: &[u8], from: usize) -> usize
    requires { 1 ≤ length body.now }
    ensures { Plains body.now from result }
{
    let kinds = &body[1..];
    let last = body.len() - 1;
    let mut place = from;
    while place < last {
        let first = body[place] as usize;
        if kinds[place] < CLASS {
            return place;
        }
        if first < 2 {
            return place;
        }
        let next = place + first;
        if last <= next {
            return next;
        }
        let second = body[next] as usize;
        let looked_at = kinds[next] < CLASS;
        if looked_at {
            return next;
        }
        if second < 2 {
            return next;
        }
        if second == first {
            place = pass_run(body, first, next);
        } else {
            place = next + second;
        }
    }
    place
}
