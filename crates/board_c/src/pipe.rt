// The transfers of endpoint zero (docs/PIPE.md), with the library's own events. Taken, received and the application's events that end no transfer open no set.
// Kept: the C interface names the parameters of these functions.
ghost use Rattle.sets.specs.Opening.{lent, lent_two};
ghost use Rattle.pipes.specs.Pipe.{wire_of};
ghost use Rattle.board.specs.Exports.{spot_of, spots, spots_two};
ghost use Rattle.board.specs.Pipes.{AnswersPipe};

// Any event of the pipe, by its number: its number; order, count, the two bytes and the room in one block; the part that is sent.
#[unsafe(no_mangle)]
pub extern "C" fn hk_pipe_event<'a>(
    set: &'a [u8],
    serial: &'a [u8],
    image: &mut [u8],
    pipe: &mut [u8],
    reply: &'a [u8],
    kind: u8,
    value: u16,
    setup: &[u8],
    out: &mut [u8; 6],
    part: &mut &'a [u8],
) -> u8
    ensures { AnswersPipe (lent set.now serial.now) (spots (spot_of set.entry.ref_ptr) (spot_of serial.entry.ref_ptr)) (spot_of reply.entry.ref_ptr)
        (record { image = image.old; pipe = pipe.old }) (record { wire = wire_of kind value; setup = setup.now; reply = reply.now })
        result (record { image = image.new; pipe = pipe.new }) out.new part.new.now (spot_of part.new.ref_ptr) }
{
    board::pipe::hk_pipe_event(
        set, serial, image, pipe, reply, kind, value, setup, out, part,
    )
}

// Any event of the pipe, by its number, on a board that lends two sets: the part is one of the set in use, the serial block or the reply.
#[unsafe(no_mangle)]
pub extern "C" fn hk_two_pipe_event<'a>(
    full: &'a [u8],
    high: &'a [u8],
    serial: &'a [u8],
    image: &mut [u8],
    pipe: &mut [u8],
    reply: &'a [u8],
    kind: u8,
    value: u16,
    setup: &[u8],
    out: &mut [u8; 6],
    part: &mut &'a [u8],
) -> u8
    ensures { AnswersPipe (lent_two full.now high.now serial.now) (spots_two (spot_of full.entry.ref_ptr) (spot_of high.entry.ref_ptr) (spot_of serial.entry.ref_ptr)) (spot_of reply.entry.ref_ptr)
        (record { image = image.old; pipe = pipe.old }) (record { wire = wire_of kind value; setup = setup.now; reply = reply.now })
        result (record { image = image.new; pipe = pipe.new }) out.new part.new.now (spot_of part.new.ref_ptr) }
{
    board::pipe::hk_two_pipe_event(
        full, high, serial, image, pipe, reply, kind, value, setup, out, part,
    )
}
