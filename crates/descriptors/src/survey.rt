// What a record and an event ask of the selected configuration, gathered in one walk. The body is well cut, as in every accepted set, so
// each descriptor is whole. A descriptor's type is read first: most descriptors are only stepped over.
// Kept: a descriptor and its stand are handed on side by side, since a struct of the two would be one more copy on a small board's stack.
ghost use Rattle.std.specs.Prelude.{◌≡◌, ℕ, true, ◌&&◌, not, eqb, ltb, get_or};
ghost use Rattle.octets.specs.Bit.{bit};
ghost use Rattle.octets.specs.Sentences.{pick, below};
ghost use Rattle.descriptors.specs.Cut.{cut, well_cut};
ghost use Rattle.descriptors.specs.Descriptor.{is_interface, is_endpoint};
ghost use Rattle.descriptors.specs.Configuration.{Configuration, configuration_of};
ghost use Rattle.descriptors.specs.Lookup.{listed};
ghost use Rattle.descriptors.specs.Survey.{noting, earlier, found_here, onward, at_current, at_other, TellsInterfaces, Surveys, good_alternate};

use crate::lookup::with_bit;
use crate::walk::Stand;
use crate::{Endpoint, types, walk};

// The bits of a word that stand for no interface with an alternate setting.
const PAST_SIXTEEN: u32 = 0xFFFF0000;

// What an event asks of the selected configuration: an endpoint, by its address, and a setting of an interface.
#[derive(Clone, Copy)]
pub struct Asked {
    pub address: u16,
    pub interface: u16,
    pub alternate: u16,
}

// Bit k of `existing` and `current`: whether interface k exists, and whether its current setting does. Of the endpoints of the current settings,
// `halting` has the bits of the bulk and interrupt ones, and `endpoint` is the one that is asked for. `there`: the setting that is asked for
// exists; `bits` has those of its endpoints and of the endpoints of the interface's current setting.
#[derive(Clone, Copy, Default)]
pub struct Survey {
    pub existing: u32,
    pub current: u32,
    pub halting: u32,
    pub endpoint: Option<Endpoint>,
    pub there: bool,
    pub bits: u32,
}

// The word with the bit of an interface; no bit stands for a number past 31.
fn with_interface(word: u32, number: u8) -> u32
    ensures { result ≡ noting word number }
{
    if number < 32 {
        return octets::set_bit(word, number as u32);
    }
    word
}

// The same, if its setting is current.
fn with_current(word: u32, number: u8, current: bool) -> u32
    ensures { result ≡ pick current (noting word number) word }
{
    if current {
        return with_interface(word, number);
    }
    word
}

// What is known after an interface descriptor, which stands at `stand`.
fn at_interface(seen: Survey, d: &[u8], stand: Stand, alternates: &[u8], asked: Asked) -> Survey
    requires { is_interface d.now ≡ true }
    ensures { result ≡ onward alternates.now asked seen stand d.now }
{
    let current = stand.alternate == octets::peek(alternates, stand.interface as usize);
    let wanted = (stand.interface as u16 == asked.interface)
        & (stand.alternate as u16 == asked.alternate);
    Survey {
        existing: with_interface(seen.existing, stand.interface),
        current: with_current(seen.current, stand.interface, current),
        there: seen.there | wanted,
        ..seen
    }
}

// The endpoint that a descriptor lists.
fn endpoint_of(d: &[u8], stand: Stand) -> Endpoint
    ensures { result ≡ listed stand d.now }
{
    Endpoint {
        interface: stand.interface,
        alternate: stand.alternate,
        address: octets::peek(d, 2),
        attributes: octets::peek(d, 3),
    }
}

// The endpoint that was found before, or else the one that a descriptor lists, if it is `wanted`.
fn first_found(endpoint: Option<Endpoint>, d: &[u8], stand: Stand, wanted: bool) -> Option<Endpoint>
    ensures { result ≡ earlier endpoint (found_here wanted stand d.now) }
{
    if wanted & endpoint.is_none() {
        return Some(endpoint_of(d, stand));
    }
    endpoint
}

// What is known after an endpoint descriptor of a current setting.
fn at_current(seen: Survey, d: &[u8], stand: Stand, asked: Asked) -> Survey
    ensures { result ≡ at_current asked seen stand d.now }
{
    let wanted = octets::peek(d, 2) as u16 == asked.address;
    Survey {
        halting: with_bit(seen.halting, d, 2 <= octets::peek(d, 3) % 4),
        endpoint: first_found(seen.endpoint, d, stand, wanted),
        bits: with_bit(seen.bits, d, stand.interface as u16 == asked.interface),
        ..seen
    }
}

// What is known after an endpoint descriptor of another setting: it counts if that is the one that is asked for.
fn at_other(seen: Survey, d: &[u8], stand: Stand, asked: Asked) -> Survey
    ensures { result ≡ at_other asked seen stand d.now }
{
    let wanted = (stand.interface as u16 == asked.interface)
        & (stand.alternate as u16 == asked.alternate);
    Survey {
        bits: with_bit(seen.bits, d, wanted),
        ..seen
    }
}

// What is known after an endpoint descriptor, which stands at `stand`.
fn at_endpoint(seen: Survey, d: &[u8], stand: Stand, alternates: &[u8], asked: Asked) -> Survey
    requires { is_endpoint d.now ≡ true }
    ensures { result ≡ onward alternates.now asked seen stand d.now }
{
    if stand.inside {
        if stand.alternate == octets::peek(alternates, stand.interface as usize) {
            return at_current(seen, d, stand, asked);
        }
        return at_other(seen, d, stand, asked);
    }
    seen
}

// What is known after any descriptor, which stands at `stand`.
fn move_on(seen: Survey, d: &[u8], stand: Stand, alternates: &[u8], asked: Asked) -> Survey
    ensures { result ≡ onward alternates.now asked seen stand d.now }
{
    let t = octets::peek(d, 1);
    if t == types::INTERFACE {
        return at_interface(seen, d, stand, alternates, asked);
    }
    if t == types::ENDPOINT {
        return at_endpoint(seen, d, stand, alternates, asked);
    }
    seen
}

// The walk, given the alternate setting of each interface and what is asked for.
pub fn walk(body: &[u8], alternates: [u8; 16], asked: Asked) -> Survey
    requires { well_cut (cut body.now) ≡ true }
    ensures { Surveys (configuration_of body.now) alternates asked result }
{
    // A slice that is named whole before it is handed on is lent in registers.
    let all = &body[..];
    let mut seen = Survey::default();
    let mut last = walk::BEFORE_FIRST;
    let mut at = octets::peek(all, 0) as usize;
    while at < all.len() {
        let step = walk::step_over(all, at, last);
        let end = step.end;
        let stand = step.stand;
        last = step.setting;
        seen = move_on(seen, &all[at..end], stand, &alternates[..], asked);
        at = walk::behind(all, end);
    }
    seen
}

// The interfaces whose alternate setting is not 0: bit j is interface j's.
fn moved(alternates: [u8; 16]) -> u32
    ensures { (k : ℕ) → bit result k ≡ (ltb k 16 && not (eqb (get_or alternates k 0) 0)) }
{
    let mut word: u32 = 0;
    for j in 0..16 {
        if alternates[j as usize] != 0 {
            word = octets::set_bit(word, j);
        }
    }
    word
}

// Whether the alternate settings of all interfaces exist, and are 0 for interfaces that do not, by the survey's words: all sixteen at once.
pub fn alternates_exist(existing: u32, current: u32, alternates: [u8; 16]) -> bool
    ensures { (c : Configuration) → TellsInterfaces c alternates existing current → result ≡ below 16 (good_alternate c alternates) }
{
    octets::has_only(octets::without(existing, PAST_SIXTEEN), current)
        & octets::has_only(moved(alternates), existing)
}
