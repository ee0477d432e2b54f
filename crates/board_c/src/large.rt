// The second way to answer an event, for boards with large sets: what the event asks of the selected configuration is collected while the set is checked. The answers are those of the first way.
// Kept: the C interface names the parameters of these functions.
ghost use Rattle.sets.specs.Opening.{lent, lent_two};
ghost use Rattle.board.specs.Exports.{spot_of, spots, spots_two, numbered, AnswersImage};

// Any event, by its number: its number; the bytes handed back and how many count; the part of the set or the serial block.
#[unsafe(no_mangle)]
pub extern "C" fn hk_table_event<'a>(
    set: &'a [u8],
    serial: &'a [u8],
    image: &mut [u8],
    kind: u8,
    value: u8,
    setup: &[u8],
    bytes: &mut [u8; 2],
    count: &mut u8,
    part: &mut &'a [u8],
) -> u8
    ensures { AnswersImage (lent set.now serial.now) (spots (spot_of set.entry.ref_ptr) (spot_of serial.entry.ref_ptr)) image.old (numbered kind value setup.now)
        result image.new bytes.new count.new part.new.now (spot_of part.new.ref_ptr) }
{
    board::large::hk_table_event(set, serial, image, kind, value, setup, bytes, count, part)
}

// The same, of a board that lends two sets: the part is one of the set in use or the serial block.
#[unsafe(no_mangle)]
pub extern "C" fn hk_two_table_event<'a>(
    full: &'a [u8],
    high: &'a [u8],
    serial: &'a [u8],
    image: &mut [u8],
    kind: u8,
    value: u8,
    setup: &[u8],
    bytes: &mut [u8; 2],
    count: &mut u8,
    part: &mut &'a [u8],
) -> u8
    ensures { AnswersImage (lent_two full.now high.now serial.now)
        (spots_two (spot_of full.entry.ref_ptr) (spot_of high.entry.ref_ptr) (spot_of serial.entry.ref_ptr)) image.old (numbered kind value setup.now)
        result image.new bytes.new count.new part.new.now (spot_of part.new.ref_ptr) }
{
    board::large::hk_two_table_event(
        full, high, serial, image, kind, value, setup, bytes, count, part,
    )
}
