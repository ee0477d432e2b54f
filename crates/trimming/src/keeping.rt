// Which strings a set's own references name, and whether string 0 has to stay.
ghost use Rattle.std.specs.Prelude.{◌≡◌, ℕ, ◌<◌, true, ◌||◌, leb};
ghost use Rattle.octets.specs.Sentences.{pick, any, member};
ghost use Rattle.octets.specs.Table.{has, with};
ghost use Rattle.descriptors.specs.Cut.{cut, well_cut};
ghost use Rattle.descriptors.specs.Descriptor.{is_interface, iInterface};
ghost use Rattle.descriptors.specs.Configuration.{configuration_references};
ghost use Rattle.sets.specs.Contents.{entries};
ghost use Rattle.sets.specs.Device.{device_body, iSerialNumber};
ghost use Rattle.trimming.specs.Trim.{referenced};
ghost use Rattle.trimming.specs.Keeping.{table_names, keeps_by, walkable};

use descriptors::walk::BEFORE_FIRST;
use descriptors::{types, walk};
use octets::table::{holds, join};
use sets::Entry;
use sets::contents::{body_of, entry_at};

// What decides which entries stay: the table of all that is named, and whether string 0 stays.
#[derive(Clone, Copy)]
pub struct Keeping {
    pub names: [u32; 8],
    pub zero: bool,
}

impl Keeping {
    // That of a set.
    pub fn of(set: &[u8]) -> Keeping
        requires { walkable set.now ≡ true }
        ensures names { (j : ℕ) → j < 256 → has result.names j ≡ referenced set.now j }
        ensures zero { result.zero ≡ (any (table_names result.names) (entries set.now) || leb 1 (iSerialNumber (device_body set.now))) }
    {
        let names = names_of(set);
        let zero = any_referenced(set, &names) | (1 <= sets::device::serial_index(set));
        Keeping { names, zero }
    }

    // Whether an entry is kept.
    pub fn keeps(&self, e: Entry) -> bool
        ensures { result ≡ keeps_by self.now.names self.now.zero e }
    {
        if e.kind != types::STRING {
            return true;
        }
        if e.index == 0 {
            return self.zero;
        }
        holds(&self.names, e.index)
    }
}

// The reference of a descriptor goes into a table, where that is an interface's.
fn join_interface(table: &mut [u32; 8], d: &[u8])
    ensures { table.new ≡ pick (is_interface d.now) (with table.old (iInterface d.now)) table.old }
{
    if octets::peek(d, 1) == types::INTERFACE {
        join(table, octets::peek(d, 8));
    }
}

// The references of a configuration go into a table: its own, and its interfaces' in every setting.
fn join_configuration(table: &mut [u32; 8], body: &[u8])
    requires { well_cut (cut body.now) ≡ true }
    ensures { (j : ℕ) → j < 256 → has table.new j ≡ (has table.old j || member j (configuration_references body.now)) }
{
    let mut last = BEFORE_FIRST;
    join(table, octets::peek(body, 6));
    let mut at = octets::peek(body, 0) as usize;
    while at < body.len() {
        let step = walk::step_over(body, at, last);
        let end = step.end;
        last = step.setting;
        join_interface(table, &body[at..end]);
        at = end;
    }
}

// The table of all that is named.
fn names_of(set: &[u8]) -> [u32; 8]
    requires { walkable set.now ≡ true }
    ensures { (j : ℕ) → j < 256 → has result j ≡ referenced set.now j }
{
    let device = sets::device::device_body(set);
    let mut table = [0u32; 8];
    join(&mut table, octets::peek(device, 14));
    join(&mut table, octets::peek(device, 15));
    join(&mut table, octets::peek(device, 16));
    let count = octets::peek(set, 2);
    for i in 0..count {
        let e = entry_at(set, i);
        if e.kind == types::CONFIGURATION {
            join_configuration(&mut table, body_of(set, e));
        }
    }
    table
}

// Whether an entry is a string whose index a table has.
fn table_names(e: Entry, names: &[u32; 8]) -> bool
    ensures { result ≡ table_names names.now e }
{
    if (e.kind == types::STRING) & (1 <= e.index) {
        return holds(names, e.index);
    }
    false
}

// Whether some string entry is named.
fn any_referenced(set: &[u8], names: &[u32; 8]) -> bool
    ensures { result ≡ any (table_names names.now) (entries set.now) }
{
    let count = octets::peek(set, 2);
    for i in 0..count {
        let e = entry_at(set, i);
        if table_names(e, names) {
            return true;
        }
    }
    false
}
