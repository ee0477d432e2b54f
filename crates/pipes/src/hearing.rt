// What an event makes of the pipe record.
ghost use Rattle.std.specs.Prelude.{◌≡◌, min};
ghost use Rattle.events.specs.Answer.{number_of};
ghost use Rattle.events.specs.Coded.{answer_in};
ghost use Rattle.pipes.specs.Pipe.{tells, library_event, order_begun, pipe_begun, turn_begun, pipe_reset, lengths_in, wire_of};
ghost use Rattle.pipes.specs.Hearing.{is_setup, moved_by, pipe_moved, looked, pipe_looked};
ghost use Rattle.pipes.specs.Coded.{moved_in};

use crate::{
    Lengths, Order, PIPE_LENGTH, Wire, begun, idle, image, lengths_in, numbers, reply_at, started,
    turns,
};
use events::{Answer, Event, Refusal};
use requests::Setup;

// What an event gets before the library hears of it: an order, if the transfer goes on; nothing, if the library has to hear of it, as of a setup, a
// reset, and a transfer that has ended; or number 8, since the pipe record does not fit.
#[derive(Clone, Copy)]
pub enum Moved {
    Ordered(u8),
    Told,
    Unfit,
}

// The event of a number; the value is a size, a speed or a room.
#[tactic(auto, unfolding(crate::specs::Pipe::wire_of))]
pub fn wire_of(kind: u8, value: u16) -> Wire
    ensures { result ≡ wire_of kind value }
{
    match kind {
        numbers::SETUP => Wire::Setup,
        numbers::TAKEN => Wire::Taken,
        numbers::RECEIVED => Wire::Received(value),
        numbers::RESET => Wire::Reset(speed_of(value)),
        numbers::REPLY => Wire::Reply,
        numbers::ROOM => Wire::Room(value),
        numbers::ACCEPT => Wire::Accept,
        numbers::REFUSE => Wire::Refuse,
        _ => Wire::Unknown,
    }
}

fn speed_of(value: u16) -> u8
    ensures { result ≡ min value 255 }
{
    value.min(255) as u8
}

// A setup, of 8 bytes or not.
pub fn is_setup(wire: Wire) -> bool
    ensures { result ≡ is_setup wire }
{
    matches!(wire, Wire::Setup | Wire::Unknown)
}

// The library hears of it, whatever the transfer: a setup or a reset.
fn tells(wire: Wire) -> bool
    ensures { result ≡ tells wire }
{
    is_setup(wire) | matches!(wire, Wire::Reset(_))
}

// The event that the library hears; any that looks at the transfer has ended it.
pub fn library_event(wire: Wire, setup: &[u8]) -> Event
    ensures { result ≡ library_event wire setup.now }
{
    match wire {
        Wire::Setup => events::setup_event(setup),
        Wire::Reset(speed) => Event::BusReset(speed),
        Wire::Unknown => Event::Malformed,
        _ => Event::StatusEnd,
    }
}

// A setup was answered: the transfer that it starts, and the order. One that was not 8 bytes starts none.
pub fn begin(answer: Answer, setup: Setup, size: u8, pipe: &mut [u8; PIPE_LENGTH]) -> u8
    ensures order { result ≡ order_begun (number_of (answer_in answer)) (turn_begun (answer_in answer) setup size) }
    ensures pipe { pipe.new ≡ pipe_begun (number_of (answer_in answer)) pipe.old (turn_begun (answer_in answer) setup size) }
{
    let number = events::reply::number(answer);
    if number == Refusal::SetupLengthWrong as u8 {
        return Order::Nothing as u8;
    }
    let turn = begun(number, started(reply_at(answer), setup, size));
    image::store(turn.transfer, pipe);
    turn.order
}

// A reset was answered.
// Kept: a number and no Refusal, since this promises of every number, and docs/TRACE.md names it.
pub fn restart(number: u8, pipe: &mut [u8; PIPE_LENGTH])
    ensures { pipe.new ≡ pipe_reset number pipe.old }
{
    if number == 0 {
        image::store(idle(), pipe);
    }
}

// Any other event.
fn move_on(lengths: Lengths, wire: Wire, pipe: &mut [u8; PIPE_LENGTH]) -> Moved
    ensures moved { moved_in result ≡ moved_by lengths wire pipe.old }
    ensures pipe { pipe.new ≡ pipe_moved lengths wire pipe.old }
{
    if !image::fits_in(lengths, pipe) {
        return Moved::Unfit;
    }
    match turns::turned(lengths.reply, wire, image::read(pipe)) {
        Some(turn) => {
            image::store(turn.transfer, pipe);
            Moved::Ordered(turn.order)
        }
        None => {
            image::store(idle(), pipe);
            Moved::Told
        }
    }
}

// Any event, on a pipe record of any length, before the library hears of it.
fn look_at(lengths: Lengths, wire: Wire, pipe: &mut [u8]) -> Moved
    ensures moved { moved_in result ≡ looked lengths wire pipe.old }
    ensures pipe { pipe.new ≡ pipe_looked lengths wire pipe.old }
{
    match pipe.as_mut_array() {
        None => Moved::Unfit,
        Some(_) if tells(wire) => Moved::Told,
        Some(pipe) => move_on(lengths, wire, pipe),
    }
}

// The same by the blocks that are lent: the set in use, the serial block, the application's reply.
pub fn look(set: &[u8], serial: &[u8], reply: &[u8], wire: Wire, pipe: &mut [u8]) -> Moved
    ensures moved { moved_in result ≡ looked (lengths_in set.now serial.now reply.now) wire pipe.old }
    ensures pipe { pipe.new ≡ pipe_looked (lengths_in set.now serial.now reply.now) wire pipe.old }
{
    look_at(lengths_in(set, serial, reply), wire, pipe)
}
