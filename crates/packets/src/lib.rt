// A reply, cut into packets.
#![tactic(auto)]

ghost use Rattle.std.specs.Prelude.{◌≡◌, true, ◌+◌, length};
ghost use Rattle.octets.specs.Octets.{part};
ghost use Rattle.packets.specs.Packets.{can_cut, packet_count, packet};
ghost use Rattle.packets.specs.Told.{told};

// The number of a packet that a reply does not have, for C: `packet_of` gives None.
pub const NO_SUCH_PACKET: u8 = 15;

// A packet: the part of the reply that it is.
#[derive(Clone, Copy)]
pub struct Packet {
    pub offset: usize,
    pub length: usize,
}

// Kept: `asked` and `size` go side by side, as hk_packet is told them; a struct of both would be made for each packet and taken apart at once.
fn can_cut(reply: usize, asked: u16, size: u32) -> bool
    ensures { result ≡ can_cut reply asked size }
{
    matches!(size, 8 | 16 | 32 | 64) & (reply <= asked as usize)
}

// How many packets a reply has that may be cut.
fn packet_count(reply: usize, asked: u16, size: u32) -> usize
    requires { can_cut reply asked size ≡ true }
    ensures { result ≡ packet_count reply asked size }
{
    let each = size as usize;
    if reply == asked as usize {
        return reply.div_ceil(each);
    }
    reply / each + 1
}

// The nth packet, from 0 on, of a reply of so many bytes; none where the reply cannot be cut or has no more.
pub fn packet_of(reply: usize, asked: u16, size: u32, nth: u32) -> Option<Packet>
    ensures { told result ≡ packet reply asked size nth }
{
    if !can_cut(reply, asked, size) {
        return None;
    }
    let each = size as usize;
    let k = nth as usize;
    if packet_count(reply, asked, size) <= k {
        return None;
    }
    let offset = k * each;
    let left = reply - offset;
    let length = each.min(left);
    Some(Packet { offset, length })
}

// The packet as a part of the reply, and no copy; no byte of it where there is no such packet.
pub fn cut<'a>(reply: &'a [u8], asked: u16, size: u32, nth: u32) -> &'a [u8]
    ensures bytes { result.now ≡ part reply.now (packet (length reply.now) asked size nth).offset (packet (length reply.now) asked size nth).length }
    ensures block { result.ref_ptr.0 ≡ reply.entry.ref_ptr.0 }
    ensures offset { result.ref_ptr.1 ≡ reply.entry.ref_ptr.1 + (packet (length reply.now) asked size nth).offset }
{
    match packet_of(reply.len(), asked, size, nth) {
        None => &reply[..0],
        Some(here) => {
            let start = here.offset;
            let end = start + here.length;
            &reply[start..end]
        }
    }
}
