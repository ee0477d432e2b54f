// The transfers of endpoint zero (docs/PIPE.md), with the library's own events. Taken, received and the application's events that end no transfer open no set.
// Kept: the C interface names the parameters of the hk_ functions; inner ones are lent them side by side, since a struct would lend slices by address.
ghost use Rattle.std.specs.Prelude.{◌≡◌};
ghost use Rattle.sets.specs.Opening.{lent, lent_two};
ghost use Rattle.pipes.specs.Image.{transfer_of};
ghost use Rattle.pipes.specs.Sending.{room_for, sent};
ghost use Rattle.pipes.specs.Pipe.{heard, lengths_in, wire_of};
ghost use Rattle.pipes.specs.Hearing.{HandsPiece, out_bytes, Gets};
ghost use Rattle.pipes.specs.Coded.{response_in};
ghost use Rattle.board.specs.Exports.{spot_of, spots, spots_two};
ghost use Rattle.board.specs.Pipes.{AnswersPipe};

use events::Refusal;
use pipes::hearing::Moved;
use pipes::response::Response;
use pipes::{Order, Wire, hearing, response};

// Any event of the pipe, on a board that lends one set. The library hears of it last, with one call for every event.
fn hear(
    set: &[u8],
    serial: &[u8],
    image: &mut [u8],
    pipe: &mut [u8],
    reply: &[u8],
    wire: Wire,
    setup: &[u8],
) -> Response
    ensures { Gets (heard (lent set.now serial.now) (record { image = image.old; pipe = pipe.old }) (record { wire = wire; setup = setup.now; reply = reply.now }))
        (response_in result) image.new pipe.new }
{
    match hearing::look(set, serial, reply, wire, pipe) {
        Moved::Ordered(order) => response::plain(0, order),
        Moved::Unfit => response::plain(Refusal::RecordDoesNotFit as u8, Order::Nothing as u8),
        Moved::Told => {
            let accepted = crate::opened(set, serial);
            let what = hearing::library_event(wire, setup);
            let answer = crate::event(accepted, set, serial, image, what);
            response::settle(set, pipe, wire, requests::setup_of(setup), answer)
        }
    }
}

// What the event gets is handed to C: the part lies in the set in use. A function of its own, so that what it lends has its place on the stack where the event's parts had theirs.
fn finish<'a>(
    first: &'a [u8],
    used: &'a [u8],
    serial: &'a [u8],
    reply: &'a [u8],
    pipe: &[u8],
    response: Response,
    out: &mut [u8; 6],
    part: &mut &'a [u8],
) -> u8
    ensures number { result ≡ response.number }
    ensures out { out.new ≡ out_bytes (response_in response) (room_for response.order (transfer_of pipe.now)) }
    ensures part { HandsPiece first.now used.now serial.now reply.now first.entry.ref_ptr used.entry.ref_ptr serial.entry.ref_ptr reply.entry.ref_ptr
        (sent (lengths_in used.now serial.now reply.now) response.order (transfer_of pipe.now)) part.new.now part.new.ref_ptr }
{
    let next = pipes::image::read(pipe);
    response::write_out(response, next, out);
    *part = response::part_sent(first, used, serial, reply, response.order, next);
    response.number
}

// Any event of the pipe, by its number: its number; order, count, the two bytes and the room in one block; the part that is sent.
#[unsafe(no_mangle)]
pub extern "C" fn hk_pipe_event<'a>(
    set: &'a [u8],
    serial: &'a [u8],
    image: &mut [u8],
    pipe: &mut [u8],
    reply: &'a [u8],
    kind: u8,
    value: u16,
    setup: &[u8],
    out: &mut [u8; 6],
    part: &mut &'a [u8],
) -> u8
    ensures { AnswersPipe (lent set.now serial.now) (spots (spot_of set.entry.ref_ptr) (spot_of serial.entry.ref_ptr)) (spot_of reply.entry.ref_ptr)
        (record { image = image.old; pipe = pipe.old }) (record { wire = wire_of kind value; setup = setup.now; reply = reply.now })
        result (record { image = image.new; pipe = pipe.new }) out.new part.new.now (spot_of part.new.ref_ptr) }
{
    let wire = hearing::wire_of(kind, value);
    let response = hear(set, serial, image, pipe, reply, wire, setup);
    finish(set, set, serial, reply, pipe, response, out, part)
}

// Any event of the pipe, on a board that lends two sets.
fn hear_two<'a>(
    full: &'a [u8],
    high: &'a [u8],
    serial: &[u8],
    image: &mut [u8],
    pipe: &mut [u8],
    reply: &[u8],
    wire: Wire,
    setup: &[u8],
) -> Response
    ensures { Gets (heard (lent_two full.now high.now serial.now) (record { image = image.old; pipe = pipe.old }) (record { wire = wire; setup = setup.now; reply = reply.now }))
        (response_in result) image.new pipe.new }
{
    let used = steps::in_use(full, high, octets::peek(image, 7));
    match hearing::look(used, serial, reply, wire, pipe) {
        Moved::Ordered(order) => response::plain(0, order),
        Moved::Unfit => response::plain(Refusal::RecordDoesNotFit as u8, Order::Nothing as u8),
        Moved::Told => {
            let accepted = crate::two::opened(full, high, serial).is_ok();
            let what = hearing::library_event(wire, setup);
            let answer = crate::happen(accepted, true, used, serial, image, what);
            response::settle(used, pipe, wire, requests::setup_of(setup), answer)
        }
    }
}

// Any event of the pipe, by its number, on a board that lends two sets: the part is one of the set in use, the serial block or the reply.
#[unsafe(no_mangle)]
pub extern "C" fn hk_two_pipe_event<'a>(
    full: &'a [u8],
    high: &'a [u8],
    serial: &'a [u8],
    image: &mut [u8],
    pipe: &mut [u8],
    reply: &'a [u8],
    kind: u8,
    value: u16,
    setup: &[u8],
    out: &mut [u8; 6],
    part: &mut &'a [u8],
) -> u8
    ensures { AnswersPipe (lent_two full.now high.now serial.now) (spots_two (spot_of full.entry.ref_ptr) (spot_of high.entry.ref_ptr) (spot_of serial.entry.ref_ptr)) (spot_of reply.entry.ref_ptr)
        (record { image = image.old; pipe = pipe.old }) (record { wire = wire_of kind value; setup = setup.now; reply = reply.now })
        result (record { image = image.new; pipe = pipe.new }) out.new part.new.now (spot_of part.new.ref_ptr) }
{
    let speed = octets::peek(image, 7);
    let wire = hearing::wire_of(kind, value);
    let response = hear_two(full, high, serial, image, pipe, reply, wire, setup);
    let used = steps::in_use(full, high, speed);
    finish(full, used, serial, reply, pipe, response, out, part)
}
