// Opening: the six groups in order. Whoever walks through the configurations, the groups before and after them are asked here.
ghost use Rattle.std.specs.Prelude.{◌≡◌, List, [], true, ℕ, IfOk, IfErr};
ghost use Rattle.descriptors.specs.declared.limits.Limits.{Limits};
ghost use Rattle.sets.specs.Opening.{lent, good_configurations, opening};
ghost use Rattle.sets.specs.Pieces.{pieces_in};
ghost use Rattle.sets.specs.Strings.{languages};
ghost use Rattle.sets.specs.Contents.{entries_of};
ghost use Rattle.sets.specs.Broken.{number_of, opened_number};
ghost use Rattle.sets.specs.Checks.{Ordered, Reads, Begins, Starts, Ready};

use crate::{configuration, contents, device, string};
use descriptors::check::Verdict;
use descriptors::limits::Limits;

// What is broken of a set: the first of the six groups, in their order. Of two sets also that they do not agree.
#[derive(Clone, Copy, PartialEq, Eq)]
pub enum Broken {
    Frame,
    Contents,
    Device,
    Configuration,
    Strings,
    Serial,
    Pair,
}

// A device descriptor's bytes.
const DEVICE_LENGTH: usize = 18;

// What groups 1 to 3 tell: how many configurations there are, where the device descriptor lies, and whether there is no entry besides.
#[derive(Clone, Copy)]
pub struct Begun {
    pub configurations: u8,
    pub bare: bool,
    pub device: u16,
}

// The number of what opening gives, as the C header names it: 0, or that of what is broken; the groups are numbered from 1 on.
pub fn number(opened: Result<(), Broken>) -> u8
    ensures { result ≡ opened_number opened }
{
    match opened {
        Ok(()) => 0,
        Err(Broken::Pair) => 24,
        // Kept: a number of its own for each of them, `Frame = 1`, is a chain of tests: 36 bytes more of code at each call on RISC-V.
        Err(group) => group as u8 + 1,
    }
}

// Opening: the first group that is broken, if one is.
// Kept: set, serial block and limits go side by side: a struct lends slices by address, 16 bytes of stack at each level.
pub fn opening(set: &[u8], serial: &[u8], limits: Limits) -> Result<(), Broken>
    ensures { opened_number result ≡ opening limits (lent set.now serial.now) }
{
    let begun = begin(set, limits)?;
    // The strings are read first: the one walk through a configuration tells its references too.
    let mut names = [0u32; 8];
    let strings = read_strings(set, begun.bare, &mut names);
    let configurations = configuration::good_configurations(
        set,
        limits,
        &names,
        begun.configurations,
    );
    finish(set, serial, configurations, strings, &names, begun.device)
}

// Kept: `begin` and `finish` hand on to `first_groups` and `last_groups` and do no more, so that what these are lent shares its place on the stack.
// The parts of opening around the configurations, each a function of its own, so that what they are lent shares its place on the stack: groups 1 to 3,
fn begin(set: &[u8], limits: Limits) -> Result<Begun, Broken>
    ensures ok { IfOk result (λ begun. Starts limits set.now begun) }
    ensures err { IfErr result (λ broken. (serial : List ℕ) → number_of broken ≡ opening limits (lent set.now serial)) }
{
    first_groups(set, limits)
}

// the strings in the languages that string 0 lists, unless there is none,
fn read_strings(set: &[u8], bare: bool, names: &mut [u32; 8]) -> bool
    requires { Ordered set.now × (bare ≡ true → entries_of 3 set.now ≡ []) }
    ensures { Reads set.now (languages set.now) result names.new }
{
    if bare {
        string::name_none(names);
        return true;
    }
    string::read(set, string::string_zero(set), names)
}

// and groups 4 to 6.
fn finish(
    set: &[u8],
    serial: &[u8],
    configurations: Verdict,
    strings: bool,
    names: &[u32; 8],
    device: u16,
) -> Result<(), Broken>
    requires { Ready set.now names.now strings configurations device }
    ensures { (limits : Limits) → Begins limits set.now → configurations.good ≡ good_configurations limits (pieces_in set.now)
        → opened_number result ≡ opening limits (lent set.now serial.now) }
{
    last_groups(set, serial, configurations, strings, names, device)
}

// Groups 1 to 3.
pub fn first_groups(set: &[u8], limits: Limits) -> Result<Begun, Broken>
    ensures ok { IfOk result (λ begun. Starts limits set.now begun) }
    ensures err { IfErr result (λ broken. (serial : List ℕ) → number_of broken ≡ opening limits (lent set.now serial)) }
{
    if !contents::good_frame(set) {
        return Err(Broken::Frame);
    }
    let Some(outline) = contents::good_contents(set, limits) else {
        return Err(Broken::Contents);
    };
    let Some(e) = device::sole_entry(set, outline.devices) else {
        return Err(Broken::Device);
    };
    if !device::good_devices(set, e, outline.configurations, limits) {
        return Err(Broken::Device);
    }
    Ok(Begun {
        configurations: outline.configurations,
        bare: octets::peek(set, 2) == outline.configurations + 1,
        device: e.offset,
    })
}

// Groups 4 to 6, once the strings are read into `names`, which are `good` or not, and the configurations are walked through: the first that is broken, if one is.
// Kept: what `Ready` tells of goes side by side, and is asked in `requires`: a struct lends slices by address, 16 bytes of stack at each level.
pub fn last_groups(
    set: &[u8],
    serial: &[u8],
    configurations: Verdict,
    good: bool,
    names: &[u32; 8],
    device: u16,
) -> Result<(), Broken>
    requires { Ready set.now names.now good configurations device }
    ensures { (limits : Limits) → Begins limits set.now → configurations.good ≡ good_configurations limits (pieces_in set.now)
        → opened_number result ≡ opening limits (lent set.now serial.now) }
{
    let at = device as usize;
    let body = &set[at..at + DEVICE_LENGTH];
    if !configurations.good {
        return Err(Broken::Configuration);
    }
    if !(configurations.refers & device::device_refers(body, names) & good) {
        return Err(Broken::Strings);
    }
    if !device::good_serial(octets::peek(body, 16), serial) {
        return Err(Broken::Serial);
    }
    Ok(())
}
