// The endpoints of the current settings, for a board that opens them.
// Kept: the C interface names the parameters of these functions.
ghost use Rattle.sets.specs.Opening.{lent};
ghost use Rattle.board.specs.Exports.{spot_of, spots, GivesEndpoint};

// Endpoint descriptor `number` of the current settings, from 0 on: a part of the set, and no copy.
#[unsafe(no_mangle)]
pub extern "C" fn hk_endpoint<'a>(
    set: &'a [u8],
    serial: &'a [u8],
    image: &[u8],
    number: u8,
    descriptor: &mut &'a [u8],
) -> u8
    ensures { GivesEndpoint (lent set.now serial.now) (spots (spot_of set.entry.ref_ptr) (spot_of serial.entry.ref_ptr)) image.now number
        result descriptor.new.now (spot_of descriptor.new.ref_ptr) }
{
    board::endpoint::hk_endpoint(set, serial, image, number, descriptor)
}
