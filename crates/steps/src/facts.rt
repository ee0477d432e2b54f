// What an event has to know of a board, gathered from its set and its serial block.
ghost use Rattle.std.specs.Prelude.{◌≡◌, Bool, true, false, List, ℕ, ◌<◌, ltb, length};
ghost use Rattle.octets.specs.Bit.{bit};
ghost use Rattle.octets.specs.Sentences.{pick};
ghost use Rattle.sets.specs.View.{has_value};
ghost use Rattle.events.specs.Requests.{language_for, locate_string, locate};
ghost use Rattle.records.specs.Change.{record_in};
ghost use Rattle.events.specs.Facts.{naming, question_of, asked_by};
ghost use Rattle.steps.specs.Gathering.{configurations_in, Openable, view_in, body_found, located};
ghost use Rattle.steps.specs.Selected.{nothing_known, Knows, Seeks, facts_of};

use descriptors::survey::{Asked, Survey};
use descriptors::{ConfigurationIndex, ConfigurationValue, survey, types};
use events::Event;
use events::facts::{Facts, Located};
use records::Device;
use requests::Setup;
use sets::{Entry, configuration, contents};

// The question of a function event, or of one that asks nothing.
fn naming(address: u8) -> Setup
    ensures { result ≡ naming address }
{
    Setup {
        bmRequestType: 0,
        bRequest: 0,
        wValue: 0,
        wIndex: address as u16,
        wLength: 0,
    }
}

// An event's question, put as a setup.
fn question_of(event: Event) -> Setup
    ensures { result ≡ question_of event }
{
    match event {
        Event::Request(setup) => setup,
        Event::Halt(address) | Event::PacketPassed(address) => naming(address),
        _ => naming(0),
    }
}

// An entry that was looked up: its body, and where that lies.
pub fn body_found(set: &[u8], entry: Option<Entry>) -> &[u8]
    ensures { result.now ≡ body_found set.now entry }
{
    match entry {
        Some(e) => contents::body_of(set, e),
        None => &set[0..0],
    }
}

fn place(entry: Option<Entry>) -> Located
    ensures { result ≡ located entry }
{
    match entry {
        Some(e) => Located::Body {
            offset: e.offset,
            length: e.length,
        },
        None => Located::Nowhere,
    }
}

// Whether an interface is among those of a word; none has a number past 15.
fn is_among(existing: u32, interface: u16) -> bool
    ensures { result ≡ pick (ltb interface 16) (bit existing interface) false }
{
    interface < 16 && octets::test_bit(existing, interface as u32)
}

// Whether the set has the configuration that SET_CONFIGURATION asks for, by its value.
#[tactic(auto, using(sets::proofs::Lookups::value_there))]
fn has_asked(set: &[u8], setup: Setup) -> bool
    ensures { setup.bRequest ≡ 0x09 → setup.wValue < 256 → result ≡ has_value (record { 0 = setup.wValue }) (configurations_in set.now) }
{
    if setup.bRequest == requests::SET_CONFIGURATION {
        let [value, _] = setup.wValue.to_le_bytes();
        return configuration::by_value(set, ConfigurationValue(value)).is_some();
    }
    false
}

// The language in which a string is given: string 0 is given for any, and the first listed one stands in for one that is not listed.
fn language_for(set: &[u8], index: u8, asked: u16) -> u16
    ensures { (paired : Bool) (serial : List ℕ) → result ≡ language_for (view_in paired set.now serial) index asked }
{
    if index == 0 {
        return 0;
    }
    if sets::string::language_listed(set, asked) {
        return asked;
    }
    sets::string::first_language(set)
}

// Where the string with an index lies, in a language.
fn locate_string(set: &[u8], serial: &[u8], index: u8, language: u16) -> Located
    requires { length serial.now < 65536 }
    ensures { (paired : Bool) → result ≡ locate_string (view_in paired set.now serial.now) index language }
{
    if (1 <= index) & (index == sets::device::serial_index(set)) {
        if sets::string::language_listed(set, language) {
            return Located::Serial {
                length: serial.len() as u16,
            };
        }
        return Located::Nowhere;
    }
    place(contents::find_entry(set, types::STRING, index, language))
}

// Where the descriptor lies that GET_DESCRIPTOR asks for: a configuration by its index, another type by its entry. In a set that is lent alone there
// is no entry of type 6 or 7.
#[tactic(auto, using(crate::proofs::Configurations::located_found), unfolding(events::specs::Requests::locate))]
fn locate(set: &[u8], serial: &[u8], setup: Setup) -> Located
    requires { length serial.now < 65536 }
    ensures { (paired : Bool) → setup.bRequest ≡ 0x06 → result ≡ locate (view_in paired set.now serial.now) setup }
{
    let [index, kind] = setup.wValue.to_le_bytes();
    if setup.bRequest != requests::GET_DESCRIPTOR {
        return Located::Nowhere;
    }
    match kind {
        types::STRING => {
            locate_string(set, serial, index, language_for(set, index, setup.wIndex))
        }
        types::CONFIGURATION => place(configuration::by_index(set, ConfigurationIndex(index))),
        types::DEVICE | types::DEVICE_QUALIFIER | types::OTHER_SPEED_CONFIGURATION => {
            place(contents::find_entry(set, kind, index, 0))
        }
        _ => Located::Nowhere,
    }
}

// What an event asks of the selected configuration.
pub fn asked_of(event: Event) -> Asked
    ensures { result ≡ asked_by (question_of event) }
{
    let question = question_of(event);
    Asked {
        address: question.wIndex,
        interface: question.wIndex,
        alternate: question.wValue,
    }
}

// Kept: `configured` beside the survey, since a record whose value no configuration has is judged by the empty survey (records::fits).
// What an event knows of the configurations: whether the selected one is there, whether some one supports remote wakeup, and the selected one's survey.
#[derive(Clone, Copy)]
pub struct Selected {
    pub configured: bool,
    pub waking: bool,
    pub survey: Survey,
}

// Before anything is known.
pub fn nothing_known() -> Selected
    ensures { result ≡ nothing_known }
{
    Selected {
        configured: false,
        waking: false,
        survey: Survey {
            existing: 0,
            current: 0,
            halting: 0,
            endpoint: None,
            there: false,
            bits: 0,
        },
    }
}

// Kept: the set, the serial block and that they open are handed on side by side: as one struct the slices are lent by address, 16 bytes of stack at each level.
// What is known of the configuration that the record selects, looked up: one lookup and one walk through it.
fn look_up(set: &[u8], serial: &[u8], device: Device, event: Event) -> Selected
    requires { Openable set.now serial.now }
    ensures { Knows set.now device.configuration device.alternates (asked_by (question_of event)) result }
{
    let selected = configuration::by_value(set, ConfigurationValue(device.configuration));
    let body = body_found(set, selected);
    let alternates = device.alternates;
    let survey = survey::walk(body, alternates, asked_of(event));
    Selected {
        configured: selected.is_some(),
        waking: configuration::wakes(set),
        survey,
    }
}

// What an event has to know of the configuration that the record selects; nothing where the set does not open. It is asked beside the reaction, to spare the stack. A slice that is
// named whole before it is handed on is lent in registers.
pub fn learn(accepted: bool, set: &[u8], serial: &[u8], image: &[u8], event: Event) -> Selected
    requires { accepted ≡ true → Openable set.now serial.now }
    ensures { accepted ≡ true → Knows set.now (record_in image.now).configuration (record_in image.now).alternates (asked_by (question_of event)) result }
{
    if !accepted {
        return nothing_known();
    }
    let all = &set[..];
    let laid = &image[..];
    look_up(all, serial, records::read(laid), event)
}

// What only one request asks: whether the set has the configuration, and where the descriptor lies.
#[derive(Clone, Copy)]
pub struct Sought {
    pub configuration: bool,
    pub located: Located,
}

// It is looked up for that request alone; nothing is sought where the set does not open.
pub fn seek(accepted: bool, set: &[u8], serial: &[u8], event: Event) -> Sought
    requires { accepted ≡ true → Openable set.now serial.now }
    ensures { accepted ≡ true → (paired : Bool) → Seeks (view_in paired set.now serial.now) (question_of event) result }
{
    if !accepted {
        return Sought {
            configuration: false,
            located: Located::Nowhere,
        };
    }
    let question = question_of(event);
    let all = &set[..];
    let block = &serial[..];
    Sought {
        configuration: has_asked(all, question),
        located: locate(all, block, question),
    }
}

// The facts of the set in use, one of two or lent alone, from what is known of its configurations and what was sought.
pub fn gather(paired: bool, event: Event, known: Selected, sought: Sought) -> Facts
    ensures { result ≡ facts_of paired (question_of event) known sought }
{
    let question = question_of(event);
    Facts {
        paired,
        configured: known.configured,
        waking: known.waking,
        interface: is_among(known.survey.existing, question.wIndex),
        survey: known.survey,
        configuration: sought.configuration,
        located: sought.located,
    }
}
