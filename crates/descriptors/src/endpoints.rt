// The endpoint descriptors of the current settings, in the body's order: where one of them lies. The body is well cut, as in every accepted set.
ghost use Rattle.std.specs.Prelude.{◌≡◌, true};
ghost use Rattle.std.proofs.Math.ListN.{get_elem?};
ghost use Rattle.descriptors.specs.Cut.{cut, well_cut};
ghost use Rattle.descriptors.specs.Configuration.{is_current};
ghost use Rattle.descriptors.specs.Lookup.{lists_one};
ghost use Rattle.descriptors.specs.Endpoints.{current_descriptors};
ghost use Rattle.descriptors.specs.Seek.{found_at, passing};

use crate::types::ENDPOINT;
use crate::walk;
use crate::walk::Stand;

// Where a descriptor lies in a body.
#[derive(Clone, Copy)]
pub struct DescriptorPlace {
    pub offset: usize,
    pub length: usize,
}

// Whether a descriptor, which stands at `stand`, lists an endpoint of a current setting.
fn lists_current(d: &[u8], stand: Stand, alternates: &[u8]) -> bool
    ensures { result ≡ lists_one (is_current alternates.now) stand d.now }
{
    (octets::peek(d, 1) == ENDPOINT)
        & stand.inside
        & (stand.alternate == octets::peek(alternates, stand.interface as usize))
}

// How many are still to be passed by, after one that counts or does not.
fn pass(counts: bool, left: u8) -> u8
    ensures { result ≡ passing counts left }
{
    if counts {
        return left.saturating_sub(1);
    }
    left
}

// The endpoint descriptor of the current settings that has a number, from 0 on.
pub fn find(body: &[u8], alternates: [u8; 16], number: u8) -> Option<DescriptorPlace>
    requires { well_cut (cut body.now) ≡ true }
    ensures { result ≡ found_at (get_elem? (current_descriptors alternates body.now) number) }
{
    let mut left = number;
    let mut last = walk::BEFORE_FIRST;
    let mut at = octets::peek(body, 0) as usize;
    while at < body.len() {
        let step = walk::step_over(body, at, last);
        let end = step.end;
        let stand = step.stand;
        last = step.setting;
        let counts = lists_current(&body[at..end], stand, &alternates[..]);
        if counts & (left == 0) {
            return Some(DescriptorPlace {
                offset: at,
                length: end - at,
            });
        }
        left = pass(counts, left);
        at = end;
    }
    None
}
