// What an event gets, and how it is handed to C.
ghost use Rattle.std.specs.Prelude.{◌≡◌, length};
ghost use Rattle.sets.specs.Device.{device_body, bMaxPacketSize0};
ghost use Rattle.events.specs.Coded.{answer_in};
ghost use Rattle.pipes.specs.Sending.{room_for, sent};
ghost use Rattle.pipes.specs.Pipe.{lengths_in};
ghost use Rattle.pipes.specs.Hearing.{HandsPiece, bare, with_bytes, responds, settles, out_bytes};
ghost use Rattle.pipes.specs.Coded.{response_in};

use crate::{Order, Transfer, Wire, hearing, lengths_in, sending};
use events::Answer;
use events::reply::{self as answers, Handed};
use requests::Setup;

// What an event gets: its number, the order, and the bytes handed back.
// Kept: number and order are bytes and no enums, since `write_out` and `part_sent` promise of every one.
#[derive(Clone, Copy)]
pub struct Response {
    pub number: u8,
    pub order: u8,
    pub bytes: Handed,
}

// No bytes are handed back.
pub fn plain(number: u8, order: u8) -> Response
    ensures { response_in result ≡ bare number order }
{
    Response {
        number,
        order,
        bytes: Handed {
            count: 0,
            first: 0,
            second: 0,
        },
    }
}

// An answer's bytes are.
fn with_bytes(answer: Answer, order: u8) -> Response
    ensures { response_in result ≡ with_bytes (answer_in answer) order }
{
    Response {
        number: answers::number(answer),
        order,
        bytes: answers::bytes_of(answer),
    }
}

// What the library answered settles the pipe; `set` is the set in use. A transfer that has ended left the pipe idle already.
// Kept: the length is asked in `requires`, since board calls this with the slice that C lends; where that is not 16, `hearing::look` gives Unfit.
pub fn settle(set: &[u8], pipe: &mut [u8], wire: Wire, setup: Setup, answer: Answer) -> Response
    requires { length pipe.old ≡ 16 }
    ensures response { response_in result ≡ responds (bMaxPacketSize0 (device_body set.now)) wire setup (answer_in answer) }
    ensures pipe { pipe.new ≡ settles (bMaxPacketSize0 (device_body set.now)) wire setup (answer_in answer) pipe.old }
{
    let pipe = pipe.as_mut_array().unwrap();
    if hearing::is_setup(wire) {
        let size = octets::peek(sets::device::device_body(set), 7);
        let order = hearing::begin(answer, setup, size, pipe);
        return with_bytes(answer, order);
    }
    let number = answers::number(answer);
    hearing::restart(number, pipe);
    plain(number, Order::Nothing as u8)
}

// The six bytes that are handed to C; `next` is the transfer that the event left.
pub fn write_out(response: Response, next: Transfer, out: &mut [u8; 6])
    ensures { out.new ≡ out_bytes (response_in response) (room_for response.order next) }
{
    let room = sending::room_for(response.order, next).to_le_bytes();
    *out = [
        response.order,
        response.bytes.count,
        response.bytes.first,
        response.bytes.second,
        room[0],
        room[1],
    ];
}

// The part that is handed to C: it lies in the set in use, the serial block or the application's reply; one that is not handed back in the first set.
pub fn part_sent<'a>(
    first: &'a [u8],
    used: &'a [u8],
    serial: &'a [u8],
    reply: &'a [u8],
    order: u8,
    next: Transfer,
) -> &'a [u8]
    ensures { HandsPiece first.now used.now serial.now reply.now first.entry.ref_ptr used.entry.ref_ptr serial.entry.ref_ptr reply.entry.ref_ptr
        (sent (lengths_in used.now serial.now reply.now) order next) result.now result.ref_ptr }
{
    let piece = sending::sent(lengths_in(used, serial, reply), order, next);
    sending::part_of(first, used, serial, reply, piece)
}
