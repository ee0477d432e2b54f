// One walk that checks a configuration body and collects what is asked of it. A descriptor's type is asked first, and that a descriptor which is only
// stepped over ends inside the body only by where the walk ends.
ghost use Rattle.std.specs.Prelude.{◌≡◌, Bool, ◌&&◌, ◌%◌, ◌<◌};
ghost use Rattle.octets.specs.Table.{has};
ghost use Rattle.descriptors.specs.declared.survey.Asked.{Asked};
ghost use Rattle.descriptors.specs.Sequence.{good_kind, listable, Ready};
ghost use Rattle.single_walk.specs.Course.{limits_at, wanted_of, role_of, with_setting, endpoint_of, first_found, at_other, at_current, with_endpoint, begin_current, begin_other, setting_out, Starts, Lists, Turns, Ends, Rests};

use crate::course::{Course, Role};
use crate::names::Names;
use descriptors::limits::{Speed, is_refused};
use descriptors::lookup::with_bit;
use descriptors::sequence::Order;
use descriptors::survey::Asked;
use descriptors::{Endpoint, sequence, types};
use octets::table::holds;

// What is asked, as the walk compares it: whether at high speed, an address, an interface, and a setting by one number.
#[derive(Clone, Copy)]
pub struct Wanted {
    pub high: bool,
    pub address: u32,
    pub interface: u32,
    pub setting: u32,
}

// What was found so far: a survey's words, the endpoint asked for, and whether the setting asked for is there.
#[derive(Clone, Copy)]
pub struct Finds {
    pub current: u32,
    pub halting: u32,
    pub bits: u32,
    pub endpoint: Option<Endpoint>,
    pub there: bool,
}

// One more descriptor: whether it may come, and how far the walk is then.
// Kept: as an Option of the Course it becomes, an event takes 8 to 11 in a hundred instructions more (35,829 for 33,128 on 4,000 plain bytes).
#[derive(Clone, Copy)]
struct Turned {
    good: bool,
    course: Course,
}

// Of a good body: whether the references are among the names, and what was found.
#[derive(Clone, Copy)]
pub struct Walked {
    pub refers: bool,
    pub finds: Finds,
}

pub fn wanted_of(high: bool, asked: Asked) -> Wanted
    ensures { result ≡ wanted_of high asked }
{
    let interface = asked.interface as u32;
    Wanted {
        high,
        address: asked.address as u32,
        interface,
        setting: interface % 256 + 256 * asked.alternate as u32 + 16777216 * (interface / 256),
    }
}

fn set_out() -> Course
    ensures { result ≡ setting_out }
{
    Course {
        order: sequence::set_out(),
        finds: Finds {
            current: 0,
            halting: 0,
            bits: 0,
            endpoint: None,
            there: false,
        },
        role: Role::Other,
        refers: true,
    }
}

// An endpoint's attributes, size and interval at a speed. The limits of both are known here: a compiler then compares with constants.
fn good_kind(high: bool, attributes: u8, size: u16, interval: u8) -> bool
    ensures { result ≡ good_kind (limits_at high) attributes size interval }
{
    if high {
        return sequence::good_kind_in(Speed::High.ranges(), attributes, size, interval);
    }
    sequence::good_kind_in(Speed::Full.ranges(), attributes, size, interval)
}

// An endpoint descriptor may come; every speed allows its type.
fn may_list(d: &[u8], order: Order, high: bool) -> bool
    ensures { result ≡ listable (limits_at high) order d.now }
{
    if sequence::may_come(d, order) {
        return good_kind(
            high,
            octets::peek(d, 3),
            octets::word(d, 4),
            octets::peek(d, 6),
        );
    }
    false
}

// Whether every reference is among the names, after one more.
fn still_refers(refers: bool, k: u8, names: Names) -> bool
    ensures { result ≡ (refers && has names.entry.table.now k) }
{
    if k == 0 {
        return refers;
    }
    if holds(names.table, k) {
        return refers;
    }
    false
}

// The role of a setting, by its number.
fn role_of(setting: u32, alternates: &[u8; 16], wanted: Wanted) -> Role
    requires { setting % 256 < 16 }
    ensures { result ≡ role_of alternates.now wanted setting }
{
    let number = setting % 256;
    let alternate = alternates[number as usize];
    if setting / 256 == alternate as u32 {
        if number == wanted.interface {
            return Role::CurrentAskedFor;
        }
        return Role::Current;
    }
    if setting == wanted.setting {
        return Role::AskedFor;
    }
    Role::Other
}

// What is found once a current setting is begun.
fn begin_current(finds: Finds, setting: u32, wanted: Wanted) -> Finds
    requires { setting % 256 < 16 }
    ensures { result ≡ begin_current finds setting wanted }
{
    let endpoint = finds.endpoint;
    Finds {
        current: octets::set_bit(finds.current, setting % 256),
        halting: finds.halting,
        bits: finds.bits,
        endpoint,
        there: finds.there | (setting == wanted.setting),
    }
}

// The same of the setting that is asked for, if it is not current.
fn begin_other(finds: Finds) -> Finds
    ensures { result ≡ begin_other finds }
{
    let endpoint = finds.endpoint;
    Finds {
        current: finds.current,
        halting: finds.halting,
        bits: finds.bits,
        endpoint,
        there: true,
    }
}

// The same of a setting with this role; most have none.
fn with_setting(finds: Finds, setting: u32, role: Role, wanted: Wanted) -> Finds
    requires { setting % 256 < 16 }
    ensures { result ≡ with_setting finds setting role wanted }
{
    match role {
        Role::Other => finds,
        Role::AskedFor => begin_other(finds),
        Role::Current => begin_current(finds, setting, wanted),
        Role::CurrentAskedFor => begin_current(finds, setting, wanted),
    }
}

// The endpoint that a descriptor lists, in a setting.
fn endpoint_of(setting: u32, d: &[u8]) -> Endpoint
    ensures { result ≡ endpoint_of setting d.now }
{
    Endpoint {
        interface: (setting % 256) as u8,
        alternate: (setting / 256 % 256) as u8,
        address: octets::peek(d, 2),
        attributes: octets::peek(d, 3),
    }
}

// The endpoint that was found before, or else the one that a descriptor lists, if its address is asked for.
fn first_found(
    endpoint: Option<Endpoint>,
    setting: u32,
    d: &[u8],
    wanted: Wanted,
) -> Option<Endpoint>
    ensures { result ≡ first_found endpoint setting d.now wanted }
{
    if octets::peek(d, 2) as u32 == wanted.address {
        return match endpoint {
            Some(e) => Some(e),
            None => Some(endpoint_of(setting, d)),
        };
    }
    endpoint
}

// What is found once an endpoint descriptor comes, in a setting that is not current but asked for.
fn at_other(finds: Finds, d: &[u8]) -> Finds
    ensures { result ≡ at_other finds d.now }
{
    let endpoint = finds.endpoint;
    Finds {
        current: finds.current,
        halting: finds.halting,
        bits: with_bit(finds.bits, d, true),
        endpoint,
        there: finds.there,
    }
}

// The same in a current setting, of the interface asked for or not.
fn at_current(finds: Finds, d: &[u8], setting: u32, asked_for: bool, wanted: Wanted) -> Finds
    ensures { result ≡ at_current finds d.now setting asked_for wanted }
{
    let endpoint = finds.endpoint;
    Finds {
        current: finds.current,
        halting: with_bit(finds.halting, d, 2 <= octets::peek(d, 3) % 4),
        bits: with_bit(finds.bits, d, asked_for),
        endpoint: first_found(endpoint, setting, d, wanted),
        there: finds.there,
    }
}

// The same in a setting with this role; most have none.
fn with_endpoint(finds: Finds, d: &[u8], setting: u32, role: Role, wanted: Wanted) -> Finds
    ensures { result ≡ with_endpoint finds d.now setting role wanted }
{
    match role {
        Role::Other => finds,
        Role::AskedFor => at_other(finds, d),
        Role::Current => at_current(finds, d, setting, false, wanted),
        Role::CurrentAskedFor => at_current(finds, d, setting, true, wanted),
    }
}

// An endpoint descriptor.
fn list(d: &[u8], course: Course, wanted: Wanted) -> Turned
    ensures { Lists (limits_at wanted.high) wanted course d.now result }
{
    let order = course.order;
    let finds = course.finds;
    let role = course.role;
    if may_list(d, order, wanted.high) {
        return Turned {
            good: true,
            course: Course {
                order: sequence::list(d, order),
                finds: with_endpoint(finds, d, order.last, role, wanted),
                role,
                refers: course.refers,
            },
        };
    }
    Turned {
        good: false,
        course,
    }
}

// An interface descriptor, whose setting the step told.
fn start(
    d: &[u8],
    setting: u32,
    course: Course,
    names: Names,
    alternates: &[u8; 16],
    wanted: Wanted,
) -> Turned
    ensures { Starts names.entry.table.now alternates.now wanted course setting d.now result }
{
    let order = course.order;
    let finds = course.finds;
    let Some(next) = sequence::begin(d, setting, order) else {
        return Turned {
            good: false,
            course,
        };
    };
    let role = role_of(setting, alternates, wanted);
    Turned {
        good: true,
        course: Course {
            order: next,
            finds: with_setting(finds, setting, role, wanted),
            role,
            refers: still_refers(course.refers, octets::peek(d, 8), names),
        },
    }
}

// A descriptor of any type, whose setting the step told. Both speeds refuse the same types.
fn turn(
    d: &[u8],
    setting: u32,
    course: Course,
    names: Names,
    alternates: &[u8; 16],
    wanted: Wanted,
) -> Turned
    ensures { Turns (limits_at wanted.high) names.entry.table.now alternates.now wanted course setting d.now result }
{
    let t = octets::peek(d, 1);
    if t == types::ENDPOINT {
        return list(d, course, wanted);
    }
    if t == types::INTERFACE {
        return start(d, setting, course, names, alternates, wanted);
    }
    Turned {
        good: !is_refused(t),
        course,
    }
}

// How the walk ends, for so many interfaces: `whole` is whether it came to the body's end.
fn told(course: Course, whole: bool, interfaces: u8) -> Option<Walked>
    ensures { Ends course whole interfaces result }
{
    let order = course.order;
    let finds = course.finds;
    if whole & (sequence::next_of(order.last) == interfaces as u32) & (order.coming == 0) {
        return Some(Walked {
            refers: course.refers,
            finds,
        });
    }
    None
}

// The descriptors from `from` on, for so many interfaces; no speed refuses a type from 8 on. A refusal is told by the place alone, which then is
// no body's end, so that the loop keeps no flag.
pub fn rest(
    body: &[u8],
    from: usize,
    interfaces: u8,
    names: Names,
    alternates: &[u8; 16],
    wanted: Wanted,
) -> Option<Walked>
    requires { Ready body.now interfaces from }
    ensures { (high : Bool) (asked : Asked) → wanted ≡ wanted_of high asked
        → Rests (limits_at high) names.entry.table.now alternates.now asked body.now interfaces from result }
{
    let mut course = set_out();
    let mut at = from;
    let last = body.len() - 1;
    while at < last {
        let size = body[at] as usize;
        let t = body[at + 1];
        if size < 2 {
            at = last;
            break;
        }
        let end = at + size;
        if types::CLASS <= t {
            at = descriptors::walk::behind(body, end);
            continue;
        }
        if body.len() < end {
            at = last;
            break;
        }
        let order = course.order;
        let step = descriptors::walk::step_over(body, at, order.last);
        let next = step.end;
        let turned = turn(
            &body[at..next],
            step.setting,
            course,
            names,
            alternates,
            wanted,
        );
        if !turned.good {
            at = last;
            break;
        }
        course = turned.course;
        at = next;
    }
    told(course, at == body.len(), interfaces)
}
