// The BOS entry, of a kind of set that has one.
ghost use Rattle.std.specs.Prelude.{◌≡◌};
ghost use Rattle.sets.specs.Pieces.{pieces_in, pieces_of, sole};
ghost use Rattle.sets.specs.Device.{good_store};
ghost use Rattle.sets.specs.Opening.{one_store};

use crate::contents::{body_of, count_of, entry_of};
use descriptors::limits::Limits;
use descriptors::types::BOS;

fn good_store(body: &[u8]) -> bool
    ensures { result ≡ good_store body.now }
{
    (5 <= body.len()) & (octets::word(body, 2) as usize == body.len())
}

// Kept: one for this and `pairs::agreement::qualifies` would be handed the body's rule, a function, and the board's crates have none.
fn good_store_entries(set: &[u8]) -> bool
    ensures { result ≡ sole good_store (pieces_of 15 (pieces_in set.now)) }
{
    if count_of(set, BOS) != 1 {
        return false;
    }
    match entry_of(set, BOS, 0) {
        Some(e) => (e.index == 0) & (e.language == 0) & good_store(body_of(set, e)),
        None => false,
    }
}

// Asked only of a kind of set that has one.
pub fn good_capabilities(set: &[u8], limits: Limits) -> bool
    ensures { result ≡ one_store limits (pieces_in set.now) }
{
    if descriptors::limits::is_named(limits.entries, 15) {
        return good_store_entries(set);
    }
    true
}
