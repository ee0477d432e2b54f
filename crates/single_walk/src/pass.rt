// Group 4, with what is asked of the selected configuration: one pass over the entries, and one walk through each body.
ghost use Rattle.std.specs.Prelude.{◌≡◌};
ghost use Rattle.sets.specs.Checks.{Begins};
ghost use Rattle.sets.specs.Found.{can_wake};
ghost use Rattle.single_walk.specs.Passes.{is_high, AtSpeed, numbered, Walks, Passes};

use crate::collect::{Collected, collect};
use crate::names::Names;
use descriptors::limits::{Limits, Speed};
use descriptors::survey::Asked;
use descriptors::types::CONFIGURATION;
use octets::table::{holds, join};
use records::Device;
use sets::Entry;
use sets::contents::{body_whole, entry_whole};
use steps::facts::{Selected, nothing_known};

// Of good configurations: whether they refer to strings that are there, and what is known of them.
#[derive(Clone, Copy)]
pub struct Passed {
    pub refers: bool,
    pub known: Selected,
}

// What is asked of a configuration entry beside its body: the index that it has to have, and whether its value was there before.
fn is_numbered(e: Entry, index: u8, value: u8, seen: bool) -> bool
    ensures { result ≡ numbered e index value seen }
{
    (e.index == index) & (e.language == 0) & (1 <= value) & !seen
}

// Whether a configuration supports remote wakeup: bit 5 of its attributes.
fn can_wake(body: &[u8]) -> bool
    ensures { result ≡ can_wake body.now }
{
    octets::peek(body, 7) / 32 % 2 == 1
}

// Whether these limits are those of high speed.
fn is_high(limits: Limits) -> bool
    ensures { result ≡ is_high limits.speed }
{
    let speed = limits.speed;
    matches!(speed, Speed::High)
}

// A body, walked through once: of the selected one what is asked is collected, the others are checked.
fn walk_once(
    body: &[u8],
    selected: bool,
    limits: Limits,
    names: Names,
    alternates: &[u8; 16],
    asked: Asked,
) -> Option<Collected>
    requires { AtSpeed limits }
    ensures { Walks selected limits names.entry.table.now alternates.now asked body.now result }
{
    if selected {
        return collect(body, is_high(limits), names, alternates, asked);
    }
    let verdict = descriptors::check::good_configuration(body, limits, names.table);
    if !verdict.good {
        return None;
    }
    let nothing = nothing_known();
    let survey = nothing.survey;
    Some(Collected {
        refers: verdict.refers,
        survey,
    })
}

// The pass by limits of a speed, with the index that is next and the values that were there; the record's value selects, and the first that is selected counts.
pub fn configurations(
    set: &[u8],
    limits: Limits,
    names: Names,
    device: &Device,
    asked: Asked,
) -> Option<Passed>
    requires { AtSpeed limits × Begins limits set.now }
    ensures { Passes limits set.now names.entry.table.now device.now.configuration device.now.alternates asked result }
{
    let count = octets::peek(set, 2);
    let mut index: u8 = 0;
    let mut seen = [0u32; 8];
    let mut refers = true;
    let mut known = nothing_known();
    for i in 0..count {
        let e = entry_whole(set, i);
        if e.kind == CONFIGURATION {
            let body = body_whole(set, e);
            let here = octets::peek(body, 5);
            if !is_numbered(e, index, here, holds(&seen, here)) {
                return None;
            }
            let selected = (here == device.configuration) & !known.configured;
            let alternates = &device.alternates;
            let collected = walk_once(body, selected, limits, names, alternates, asked)?;
            known.waking = known.waking | can_wake(body);
            if selected {
                known.configured = true;
                known.survey = collected.survey;
            }
            refers = refers & collected.refers;
            join(&mut seen, here);
            index += 1;
        }
    }
    Some(Passed { refers, known })
}
