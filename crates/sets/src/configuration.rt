// The configurations of a set. Group 4, and looking one up.
ghost use Rattle.std.specs.Prelude.{◌≡◌, length};
ghost use Rattle.octets.specs.Sentences.{first, any, every};
ghost use Rattle.descriptors.specs.Check.{verdict, configuration_refers};
ghost use Rattle.sets.specs.Contents.{entries, entries_of, bodies};
ghost use Rattle.sets.specs.Pieces.{pieces_in};
ghost use Rattle.sets.specs.Found.{found, valued, can_wake};
ghost use Rattle.sets.specs.Opening.{good_configurations};
ghost use Rattle.sets.specs.View.{entry_by_index};
ghost use Rattle.sets.specs.Checks.{good_numbered, Begins};

use crate::Entry;
use crate::contents::{body_of, body_whole, entry_at, entry_of, entry_whole};
use descriptors::check::Verdict;
use descriptors::limits::Limits;
use descriptors::types::CONFIGURATION;
use descriptors::{ConfigurationIndex, ConfigurationValue};
use octets::table::{holds, join};

// A configuration entry: the index that it has to have, its body, and whether its value was there before.
fn good_configuration_entry(
    e: Entry,
    index: u8,
    body: &[u8],
    seen: bool,
    limits: Limits,
    names: &[u32; 8],
) -> Verdict
    ensures { result ≡ verdict (good_numbered limits e index body.now seen) (configuration_refers names.now body.now) }
{
    let verdict = descriptors::check::good_configuration(body, limits, names);
    let good = (e.index == index)
        & (e.language == 0)
        & verdict.good
        & (1 <= octets::peek(body, 5))
        & !seen;
    Verdict {
        good,
        refers: good & verdict.refers,
    }
}

// Group 4, and whether every reference of the configurations is in `names`: a pass over so many of them, with the index that is next and
// the values that were there.
pub fn good_configurations(set: &[u8], limits: Limits, names: &[u32; 8], many: u8) -> Verdict
    requires { Begins limits set.now × (many ≡ length (entries_of 2 set.now)) }
    ensures { result ≡ verdict (good_configurations limits (pieces_in set.now)) (every (configuration_refers names.now) (bodies 2 set.now)) }
{
    let mut index: u8 = 0;
    let mut seen = [0u32; 8];
    let mut refers = true;
    let mut i: u8 = 0;
    // Kept: it ends with the last configuration; a `for` over the entries would read those of the strings too.
    while index < many {
        let e = entry_whole(set, i);
        i += 1;
        if e.kind == CONFIGURATION {
            let body = body_whole(set, e);
            let value = octets::peek(body, 5);
            let again = holds(&seen, value);
            let verdict = good_configuration_entry(e, index, body, again, limits, names);
            if !verdict.good {
                return descriptors::check::refuse();
            }
            refers = refers & verdict.refers;
            join(&mut seen, value);
            index += 1;
        }
    }
    Verdict { good: true, refers }
}

// The entry of the configuration at an index.
pub fn by_index(set: &[u8], index: ConfigurationIndex) -> Option<Entry>
    ensures { result ≡ found (entry_by_index index (entries set.now)) }
{
    entry_of(set, CONFIGURATION, index.0)
}

// The entry of the configuration with a bConfigurationValue.
pub fn by_value(set: &[u8], value: ConfigurationValue) -> Option<Entry>
    ensures { result ≡ found (first (valued set.now value.0) (entries_of 2 set.now)) }
{
    // A slice that is named whole before it is handed on is lent in registers.
    let all = &set[..];
    let count = octets::peek(all, 2);
    for i in 0..count {
        let e = entry_at(all, i);
        if e.kind == CONFIGURATION {
            if octets::peek(body_of(all, e), 5) == value.0 {
                return Some(e);
            }
        }
    }
    None
}

// Whether some configuration supports remote wakeup: bit 5 of its attributes.
pub fn wakes(set: &[u8]) -> bool
    ensures { result ≡ any can_wake (bodies 2 set.now) }
{
    let count = octets::peek(set, 2);
    for i in 0..count {
        let e = entry_at(set, i);
        if e.kind == CONFIGURATION {
            if octets::peek(body_of(set, e), 7) / 32 % 2 == 1 {
                return true;
            }
        }
    }
    false
}
