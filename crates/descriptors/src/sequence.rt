// The order of settings and endpoints: which descriptor may come next, and the order after it.
ghost use Rattle.std.specs.Prelude.{◌≡◌, ◌≤◌, ◌<◌};
ghost use Rattle.descriptors.specs.declared.limits.Limits.{Limits};
ghost use Rattle.descriptors.specs.Limits.{ranges_of};
ghost use Rattle.descriptors.specs.Sequence.{next_of, Places, Begins, good_kind, comes, listed_in, setting_out};

use crate::limits;
use crate::limits::{Limits, Ranges, Speed};
use crate::lookup::bit_of;
use crate::walk::BEFORE_FIRST;

// How far the check of a body is with its settings and endpoints: numbers of one width, so that a compiler keeps them in registers.
// `last` is the setting of the descriptor before, as the step gives it. `coming` endpoints are still to come. A bit for each address: `others` are
// those of the interfaces before, `own` those of this interface's settings, `setting` those of this setting.
// Kept: docs/TRACE.md names begin and may_come, so their argument's type asks nothing more.
#[derive(Clone, Copy)]
pub struct Order {
    pub last: u32,
    pub coming: u32,
    pub others: u32,
    pub own: u32,
    pub setting: u32,
}

pub fn set_out() -> Order
    ensures { result ≡ setting_out }
{
    Order {
        last: BEFORE_FIRST,
        coming: 0,
        others: 0,
        own: 0,
        setting: 0,
    }
}

// The number of the next interface's first setting.
pub fn next_of(last: u32) -> u32
    ensures { result ≡ next_of last }
{
    (last % 256 + 1) % 256
}

// The order with the addresses once a setting is begun, by its number, if it may come.
// The whole order is handed on, since a compiler copies two numbers alone as one and takes them apart at each endpoint.
fn place(order: Order, setting: u32) -> Option<Order>
    requires { order.last < 131072 }
    ensures { Places order setting result }
{
    if setting == order.last + 256 {
        if setting < 4096 {
            return Some(order);
        }
        return None;
    }
    if setting == next_of(order.last) {
        if setting < 16 {
            return Some(Order {
                others: order.others | order.own,
                own: 0,
                ..order
            });
        }
    }
    None
}

// The order after an interface descriptor, whose setting the step told, if it may come.
pub fn begin(d: &[u8], setting: u32, order: Order) -> Option<Order>
    requires { order.last < 131072 }
    ensures { Begins order setting d.now result }
{
    if d.len() < 9 {
        return None;
    }
    if order.coming != 0 {
        return None;
    }
    let placed = place(order, setting)?;
    Some(Order {
        last: setting,
        coming: octets::peek(d, 4) as u32,
        others: placed.others,
        own: placed.own,
        setting: 0,
    })
}

// An endpoint's attributes, size and interval, by a speed's ranges.
pub fn good_kind_in(ranges: Ranges, attributes: u8, size: u16, interval: u8) -> bool
    ensures { (limits : Limits) → ranges ≡ ranges_of limits.speed → result ≡ good_kind limits attributes size interval }
{
    if attributes == 3 {
        return limits::is_sized(ranges.bursts, ranges.interrupt, size)
            & limits::is_within(ranges.polling, interval as u16);
    }
    if attributes == 2 {
        return limits::is_doubled(ranges.bulk, size);
    }
    if attributes % 4 == 1 {
        return (attributes <= 63)
            & limits::is_sized(ranges.bursts, ranges.isochronous, size)
            & limits::is_within(ranges.period, interval as u16);
    }
    false
}

// The same by a row of limits.
// Kept: each arm knows its ranges, so that a compiler compares with constants. To open 16,000 bytes of endpoints hk_open takes 155,394
// instructions on x86-64, and by `speed.ranges()` 207,018.
pub fn good_kind(limits: Limits, attributes: u8, size: u16, interval: u8) -> bool
    ensures { result ≡ good_kind limits attributes size interval }
{
    let speed = limits.speed;
    match speed {
        Speed::Full => good_kind_in(Speed::Full.ranges(), attributes, size, interval),
        Speed::High => good_kind_in(Speed::High.ranges(), attributes, size, interval),
        Speed::Super => good_kind_in(Speed::Super.ranges(), attributes, size, interval),
    }
}

// An endpoint descriptor may come, whatever its attributes, size and interval.
pub fn may_come(d: &[u8], order: Order) -> bool
    ensures { result ≡ comes order d.now }
{
    if d.len() < 7 {
        return false;
    }
    if order.coming == 0 {
        return false;
    }
    let address = octets::peek(d, 2);
    if limits::good_address(address) {
        return !octets::test_bit(order.others | order.setting, bit_of(address));
    }
    false
}

// The order after it.
pub fn list(d: &[u8], order: Order) -> Order
    requires { 1 ≤ order.coming }
    ensures { result ≡ listed_in order d.now }
{
    let e = bit_of(octets::peek(d, 2));
    Order {
        last: order.last,
        coming: order.coming - 1,
        others: order.others,
        own: octets::set_bit(order.own, e),
        setting: octets::set_bit(order.setting, e),
    }
}
