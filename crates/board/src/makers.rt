// The calls for makers, on a bench computer: these may use an array of a set's length in their frame.
// Kept: the C interface names the parameters of the hk_ functions, and the inner ones take them as they are.
ghost use Rattle.std.specs.Prelude.{◌≡◌};
ghost use Rattle.descriptors.specs.Limits.{full_speed, super_speed};
ghost use Rattle.dumps.specs.Refused.{imported_report};
ghost use Rattle.sets.specs.Opening.{lent};
ghost use Rattle.set_writer.specs.Refused.{report_of};
ghost use Rattle.pair_rules.specs.Placed.{block_number};
ghost use Rattle.board.specs.Makers.{OpensAs, Writes, Takes, Dumps, Shortens, Tells, TellsTwo};

use descriptors::limits;
use descriptors::limits::Limits;
use dumps::import::NotImported;
use events::Refusal;
use pair_rules::Block;
use records::IMAGE_LENGTH;
use set_writer::NotWritten;

// The numbers that C has for what was written, and for what was imported: 0, or why not; and for a block.
fn number_written(done: Result<(), NotWritten>) -> u8
    ensures { result ≡ (report_of done).number }
{
    match done {
        Ok(()) => 0,
        Err(why) => why.number(),
    }
}

fn number_imported(done: Result<(), NotImported>) -> u8
    ensures { result ≡ (imported_report done).number }
{
    match done {
        Ok(()) => 0,
        Err(why) => why.number(),
    }
}

fn number_of_block(block: Block) -> u8
    ensures { result ≡ block_number block }
{
    match block {
        Block::Full => 0,
        Block::High => 1,
        Block::Serial => 2,
    }
}

// Pieces end to end, in any order, become a set of this kind at the buffer's start.
fn write(pieces: &[u8], serial: &[u8], limits: Limits, buffer: &mut [u8], written: &mut u16) -> u8
    ensures { Writes limits pieces.now serial.now buffer.old result buffer.new written.new }
{
    let number = number_written(set_writer::write(pieces, serial, limits, buffer));
    *written = set_writer::length_written(number == 0, buffer);
    number
}

// A full-speed set.
#[unsafe(no_mangle)]
pub extern "C" fn hk_write(pieces: &[u8], serial: &[u8], buffer: &mut [u8], written: &mut u16) -> u8
    ensures { Writes full_speed pieces.now serial.now buffer.old result buffer.new written.new }
{
    write(pieces, serial, limits::full_speed(), buffer, written)
}

// A SuperSpeed set.
#[unsafe(no_mangle)]
pub extern "C" fn hk_super_write(
    pieces: &[u8],
    serial: &[u8],
    buffer: &mut [u8],
    written: &mut u16,
) -> u8
    ensures { Writes super_speed pieces.now serial.now buffer.old result buffer.new written.new }
{
    write(pieces, serial, limits::super_speed(), buffer, written)
}

// Opens a SuperSpeed set as hk_open opens one of full speed. No board of ours runs one: events refuse it.
#[unsafe(no_mangle)]
pub extern "C" fn hk_super_open(set: &[u8], serial: &[u8], image: &mut [u8]) -> u8
    ensures { OpensAs super_speed (lent set.now serial.now) image.old result image.new }
{
    if image.len() != IMAGE_LENGTH {
        return Refusal::RecordDoesNotFit as u8;
    }
    records::store(records::fresh(), image);
    sets::opening::number(sets::opening::opening(set, serial, limits::super_speed()))
}

// A dump, the file that Linux shows for a device, becomes a set without strings at the buffer's start.
#[unsafe(no_mangle)]
pub extern "C" fn hk_import(dump: &[u8], buffer: &mut [u8], written: &mut u16) -> u8
    ensures { Takes dump.now buffer.old result buffer.new written.new }
{
    let number = number_imported(dumps::import::import(dump, buffer));
    *written = set_writer::length_written(number == 0, buffer);
    number
}

// The device and the configurations of a set become a dump at the buffer's start. This one needs no array in its frame.
#[unsafe(no_mangle)]
pub extern "C" fn hk_export(set: &[u8], serial: &[u8], buffer: &mut [u8], written: &mut u16) -> u8
    ensures { Dumps set.now serial.now buffer.old result buffer.new written.new }
{
    match dumps::export::export(set, serial, buffer) {
        Ok(length) => {
            *written = length;
            0
        }
        Err(why) => {
            *written = 0;
            why.number()
        }
    }
}

// The strings that nothing names are dropped, in the set's own buffer; what is freed becomes zero. This one needs 516 bytes in its frame.
#[unsafe(no_mangle)]
pub extern "C" fn hk_trim(set: &mut [u8], serial: &[u8], total: &mut u16) -> u8
    ensures { Shortens full_speed set.old serial.now result set.new total.new }
{
    let number = sets::opening::number(trimming::trim(set, serial, limits::full_speed()));
    *total = set_writer::length_written(number == 0, set);
    number
}

// Opening's number, the first rule that is broken, and the byte of the set where it is broken; in group 6 of the serial block.
fn explain(set: &[u8], serial: &[u8], limits: Limits, rule: &mut u16, place: &mut u32) -> u8
    ensures { Tells limits set.now serial.now result rule.new place.new }
{
    match rules::explain(set, serial, limits) {
        Ok(()) => {
            *rule = 0;
            *place = 0;
            0
        }
        Err(told) => {
            *rule = told.rule;
            *place = told.place;
            sets::opening::number(Err(told.broken))
        }
    }
}

// Of a full-speed set. It only reads.
#[unsafe(no_mangle)]
pub extern "C" fn hk_explain(set: &[u8], serial: &[u8], rule: &mut u16, place: &mut u32) -> u8
    ensures { Tells full_speed set.now serial.now result rule.new place.new }
{
    explain(set, serial, limits::full_speed(), rule, place)
}

// Of a SuperSpeed set.
#[unsafe(no_mangle)]
pub extern "C" fn hk_super_explain(set: &[u8], serial: &[u8], rule: &mut u16, place: &mut u32) -> u8
    ensures { Tells super_speed set.now serial.now result rule.new place.new }
{
    explain(set, serial, limits::super_speed(), rule, place)
}

// The same for two sets lent together: opening's number for both, and the block that the rule is about too.
#[unsafe(no_mangle)]
pub extern "C" fn hk_two_explain(
    full: &[u8],
    high: &[u8],
    serial: &[u8],
    block: &mut u8,
    rule: &mut u16,
    place: &mut u32,
) -> u8
    ensures { TellsTwo full.now high.now serial.now result block.new rule.new place.new }
{
    match pair_rules::explain_two(full, high, serial) {
        Ok(()) => {
            *block = 0;
            *rule = 0;
            *place = 0;
            0
        }
        Err(told) => {
            *block = number_of_block(told.block);
            *rule = told.rule;
            *place = told.place;
            sets::opening::number(Err(told.broken))
        }
    }
}
