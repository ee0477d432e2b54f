// The calls for makers, on a bench computer: these may use an array of a set's length in their frame.
// Kept: the C interface names the parameters of these functions.
ghost use Rattle.sets.specs.Opening.{lent};
ghost use Rattle.descriptors.specs.Limits.{full_speed, super_speed};
ghost use Rattle.board.specs.Makers.{OpensAs, Writes, Takes, Dumps, Shortens, Tells, TellsTwo};

// Pieces end to end, in any order, become a set at the buffer's start.
#[unsafe(no_mangle)]
pub extern "C" fn hk_write(pieces: &[u8], serial: &[u8], buffer: &mut [u8], written: &mut u16) -> u8
    ensures { Writes full_speed pieces.now serial.now buffer.old result buffer.new written.new }
{
    board::makers::hk_write(pieces, serial, buffer, written)
}

// The same for a SuperSpeed set.
#[unsafe(no_mangle)]
pub extern "C" fn hk_super_write(
    pieces: &[u8],
    serial: &[u8],
    buffer: &mut [u8],
    written: &mut u16,
) -> u8
    ensures { Writes super_speed pieces.now serial.now buffer.old result buffer.new written.new }
{
    board::makers::hk_super_write(pieces, serial, buffer, written)
}

// Opens a SuperSpeed set as hk_open opens one of full speed. No board of ours runs one: events refuse it.
#[unsafe(no_mangle)]
pub extern "C" fn hk_super_open(set: &[u8], serial: &[u8], image: &mut [u8]) -> u8
    ensures { OpensAs super_speed (lent set.now serial.now) image.old result image.new }
{
    board::makers::hk_super_open(set, serial, image)
}

// A dump, the file that Linux shows for a device, becomes a set without strings at the buffer's start.
#[unsafe(no_mangle)]
pub extern "C" fn hk_import(dump: &[u8], buffer: &mut [u8], written: &mut u16) -> u8
    ensures { Takes dump.now buffer.old result buffer.new written.new }
{
    board::makers::hk_import(dump, buffer, written)
}

// The device and the configurations of a set become a dump at the buffer's start. This one needs no array in its frame.
#[unsafe(no_mangle)]
pub extern "C" fn hk_export(set: &[u8], serial: &[u8], buffer: &mut [u8], written: &mut u16) -> u8
    ensures { Dumps set.now serial.now buffer.old result buffer.new written.new }
{
    board::makers::hk_export(set, serial, buffer, written)
}

// The strings that nothing names are dropped, in the set's own buffer; what is freed becomes zero. This one needs 516 bytes in its frame.
#[unsafe(no_mangle)]
pub extern "C" fn hk_trim(set: &mut [u8], serial: &[u8], total: &mut u16) -> u8
    ensures { Shortens full_speed set.old serial.now result set.new total.new }
{
    board::makers::hk_trim(set, serial, total)
}

// Opening's number, the first rule that is broken, and the byte of the set where it is broken; in group 6 of the serial block. It only reads.
#[unsafe(no_mangle)]
pub extern "C" fn hk_explain(set: &[u8], serial: &[u8], rule: &mut u16, place: &mut u32) -> u8
    ensures { Tells full_speed set.now serial.now result rule.new place.new }
{
    board::makers::hk_explain(set, serial, rule, place)
}

// The same for a SuperSpeed set.
#[unsafe(no_mangle)]
pub extern "C" fn hk_super_explain(set: &[u8], serial: &[u8], rule: &mut u16, place: &mut u32) -> u8
    ensures { Tells super_speed set.now serial.now result rule.new place.new }
{
    board::makers::hk_super_explain(set, serial, rule, place)
}

// The same for two sets lent together: opening's number for both, and the block that the rule is about too.
#[unsafe(no_mangle)]
pub extern "C" fn hk_two_explain(
    full: &[u8],
    high: &[u8],
    serial: &[u8],
    block: &mut u8,
    rule: &mut u16,
    place: &mut u32,
) -> u8
    ensures { TellsTwo full.now high.now serial.now result block.new rule.new place.new }
{
    board::makers::hk_two_explain(full, high, serial, block, rule, place)
}
