// The check of a configuration body, a descriptor at a time.
ghost use Rattle.std.specs.Prelude.{◌≡◌, false, drop};
ghost use Rattle.descriptors.specs.Configuration.{good_head, good_configuration};
ghost use Rattle.descriptors.specs.Cut.{cut};
ghost use Rattle.descriptors.specs.Walk.{before, walked, collected};
ghost use Rattle.descriptors.specs.Check.{accompanied, accompanying, starting, checking, referring, configuration_refers, verdict};
ghost use Rattle.descriptors.specs.Sequence.{listable, checking_out, Turns, Ready, unaccompanied};
ghost use Rattle.octets.specs.Sentences.{◌⇒◌, every};
ghost use Rattle.octets.specs.Table.{has};

use crate::checked::Checked;
use crate::limits::{Limits, is_refused};
use crate::sequence::Order;
use crate::{sequence, types, walk};
use octets::table::holds;

// Whether a body, or bodies, are good; and whether they are and every string reference in them is in a table.
// Kept: an Option<bool> is no plainer, since the two are asked one after the other, for groups 4 and 5 (sets::opening::last_groups).
#[derive(Clone, Copy)]
pub struct Verdict {
    pub good: bool,
    pub refers: bool,
}

// The first descriptor of a body of so many bytes.
pub fn good_head(d: &[u8], size: usize) -> bool
    ensures { result ≡ good_head size d.now }
{
    if d.len() < 9 {
        return false;
    }
    let attributes = octets::peek(d, 7);
    let interfaces = octets::peek(d, 4);
    (octets::peek(d, 1) == types::CONFIGURATION)
        & (octets::word(d, 2) as usize == size)
        & (attributes / 128 == 1)
        & (attributes % 32 == 0)
        & (octets::peek(d, 8) <= 250)
        & (1 <= interfaces)
        & (interfaces <= 16)
}

// ---- the descriptors after the first, one after another
// Of a kind with companions: one comes where it is due, just behind an endpoint, and nowhere else.
fn is_accompanied(d: &[u8], due: bool) -> bool
    ensures { result ≡ accompanied due d.now }
{
    let companion = octets::peek(d, 1) == types::SUPERSPEED_ENDPOINT_COMPANION;
    if due {
        return companion & (6 <= d.len());
    }
    !companion
}

// Not good.
pub fn refuse() -> Verdict
    ensures { result ≡ verdict false false }
{
    Verdict {
        good: false,
        refers: false,
    }
}

// ---- the same in few numbers
fn set_out() -> Checked
    ensures { result ≡ checking_out }
{
    Checked {
        order: sequence::set_out(),
        refers: true,
    }
}

// An endpoint descriptor may come.
pub fn may_list(d: &[u8], order: Order, limits: Limits) -> bool
    ensures { result ≡ listable limits order d.now }
{
    if sequence::may_come(d, order) {
        return sequence::good_kind(
            limits,
            octets::peek(d, 3),
            octets::word(d, 4),
            octets::peek(d, 6),
        );
    }
    false
}

// What is known after a descriptor of any type, whose setting the step told, if it may come.
fn turn(
    d: &[u8],
    setting: u32,
    checked: Checked,
    limits: Limits,
    names: &[u32; 8],
) -> Option<Checked>
    ensures { Turns limits names.now checked setting d.now result }
{
    let order = checked.order;
    let t = octets::peek(d, 1);
    if t == types::ENDPOINT {
        if may_list(d, order, limits) {
            return Some(Checked {
                order: sequence::list(d, order),
                refers: checked.refers,
            });
        }
        return None;
    }
    if t == types::INTERFACE {
        let next = sequence::begin(d, setting, order)?;
        return Some(Checked {
            order: next,
            refers: checked.refers & holds(names, octets::peek(d, 8)),
        });
    }
    if is_refused(t) {
        return None;
    }
    Some(checked)
}

// The descriptors from `from` on, for so many interfaces, but for companions. A refusal is told by the place alone, which then is no body's end.
fn good_rest(body: &[u8], from: usize, interfaces: u8, limits: Limits, names: &[u32; 8]) -> Verdict
    requires { Ready body.now interfaces from }
    ensures { result ≡ verdict (walked (checking (unaccompanied limits) interfaces) starting before (cut (drop from body.now))) (every (has names.now) (collected referring body.now before from)) }
{
    // Kept: order and references stand apart in the loop, where a compiler keeps them in registers. To open 16,000 bytes of endpoints hk_open takes
    // 155,394 instructions on x86-64, and with one `Checked` in the loop 164,304.
    let start = set_out();
    let mut order = start.order;
    let mut refers = start.refers;
    let mut at = from;
    let last = body.len() - 1;
    while at < last {
        let size = body[at] as usize;
        let t = body[at + 1];
        if size < 2 {
            at = last;
            break;
        }
        let end = at + size;
        if types::CLASS <= t {
            at = walk::behind(body, end);
            continue;
        }
        if body.len() < end {
            at = last;
            break;
        }
        let step = walk::step_over(body, at, order.last);
        let next = step.end;
        let checked = Checked { order, refers };
        let Some(turned) = turn(&body[at..next], step.setting, checked, limits, names) else {
            at = last;
            break;
        };
        order = turned.order;
        refers = turned.refers;
        at = next;
    }
    let good = (at == body.len())
        & (sequence::next_of(order.last) == interfaces as u32)
        & (order.coming == 0);
    Verdict {
        good,
        refers: good & refers,
    }
}

// Whether companions stand where they are to, from `from` on; of a kind without them nothing is asked.
fn good_companions(body: &[u8], from: usize, limits: Limits) -> bool
    ensures { result ≡ (limits.companions ⇒ walked accompanying false before (cut (drop from body.now))) }
{
    if !limits.companions {
        return true;
    }
    let mut due = false;
    let mut last = walk::BEFORE_FIRST;
    let mut at = from;
    while at < body.len() {
        let Some(step) = walk::advance(body, at, last) else {
            return false;
        };
        let end = step.end;
        if !is_accompanied(&body[at..end], due) {
            return false;
        }
        due = octets::peek(&body[at..end], 1) == types::ENDPOINT;
        last = step.setting;
        at = end;
    }
    !due
}

// The check of a configuration body, in few words. `names` are the numbers that a string reference may be.
pub fn good_configuration(body: &[u8], limits: Limits, names: &[u32; 8]) -> Verdict
    ensures { result ≡ verdict (good_configuration limits body.now) (configuration_refers names.now body.now) }
{
    let Some(step) = walk::advance(body, 0, walk::BEFORE_FIRST) else {
        return refuse();
    };
    let end = step.end;
    let head = &body[..end];
    if !good_head(head, body.len()) {
        return refuse();
    }
    let rest = good_rest(body, end, octets::peek(head, 4), limits, names);
    let good = rest.good & good_companions(body, end, limits);
    Verdict {
        good,
        refers: good & rest.refers & holds(names, octets::peek(body, 6)),
    }
}
