// The check of a configuration body and what an event asks of it, in one walk.
ghost use Rattle.std.specs.Prelude.{◌≡◌, ℕ, ◌≤◌, ltb};
ghost use Rattle.octets.specs.Bit.{bit};
ghost use Rattle.single_walk.specs.Collected.{Collects};
ghost use Rattle.single_walk.specs.Course.{limits_at, SurveyOf};

use crate::names::Names;
use crate::walk;
use crate::walk::Finds;
use descriptors::check::good_head;
use descriptors::survey::{Asked, Survey};
use descriptors::walk::BEFORE_FIRST;
use octets::table::holds;

// What is found of a good body: whether every string reference in it is among the names, and what is asked of it.
#[derive(Clone, Copy)]
pub struct Collected {
    pub refers: bool,
    pub survey: Survey,
}

// The lowest n bits.
fn ones(n: u8) -> u32
    requires { n ≤ 16 }
    ensures { (k : ℕ) → bit result k ≡ ltb k n }
{
    let one: u32 = 1;
    (one << (n as u32)) - 1
}

// What the walk found, as a survey of a body with so many interfaces, numbered from 0 on.
fn survey_of(finds: Finds, interfaces: u8) -> Survey
    requires { interfaces ≤ 16 }
    ensures { SurveyOf finds interfaces result }
{
    let endpoint = finds.endpoint;
    Survey {
        existing: ones(interfaces),
        current: finds.current,
        halting: finds.halting,
        endpoint,
        there: finds.there,
        bits: finds.bits,
    }
}

// The walk at a speed, through a body that is good or not. `alternates` is the alternate setting of each interface.
pub fn collect(
    body: &[u8],
    high: bool,
    names: Names,
    alternates: &[u8; 16],
    asked: Asked,
) -> Option<Collected>
    ensures { Collects (limits_at high) names.entry.table.now alternates.now asked body.now result }
{
    let Some(step) = descriptors::walk::advance(body, 0, BEFORE_FIRST) else {
        return None;
    };
    let end = step.end;
    let head = &body[..end];
    if !good_head(head, body.len()) {
        return None;
    }
    let interfaces = octets::peek(head, 4);
    let wanted = walk::wanted_of(high, asked);
    let walked = walk::rest(body, end, interfaces, names, alternates, wanted)?;
    let finds = walked.finds;
    Some(Collected {
        refers: walked.refers & holds(names.table, octets::peek(body, 6)),
        survey: survey_of(finds, interfaces),
    })
}
