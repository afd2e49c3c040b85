// The checks of a plan: 15 to 19 in document 01's order, each over the whole plan before the next.
// No sum is made before the numbers that go into it are known to be small.
ghost use Rattle.std.specs.Prelude.{◌≡◌, ◌+◌, ◌≤◌, Bool, ltb, length, Ok};
ghost use Rattle.writer.specs.Decides.{Decides};
ghost use Rattle.writer.specs.Plan.{Part, most_sections, parts_of, misfit, first_at};
ghost use Rattle.writer.specs.Plan.{is_outside, is_wrong_size, total_of, judged_plan};

use crate::{PlanPlace, WriteRefusal};
use index::MOST_OCTETS;
use order::{Judged, Order, judge};
use sections::{EndSection, HEADER_SIZE, Indicator, least_payload_of};

// A section takes three numbers of a plan: its number, and where its payload lies in the store, by
// offset and octets; one or two left over are no section. A row of the section table is another
// thing, whose offset and length are of the section in a file: that is `standing::ROW`.
pub const ROW: usize = 3;

// The most sections of a plan.
const MOST_SECTIONS: usize = 4096;

// The most octets of a payload: a section's length, its header counted in, is a number of four
// octets.
const MOST_PAYLOAD: u64 = 4294967290;

// 16: the first place whose number can't come next, in a message that has its section 0 before and
// an 8 after the plan.
fn first_misfit(plan: &[u64]) -> Result<(), PlanPlace>
    ensures { result ≡ misfit (parts_of plan.now) }
{
    let sections = plan.len() / ROW;
    let mut order = Order::AfterIndicator;
    for place in 0..sections {
        let judged = judge(order, plan[place * ROW]);
        let Judged::Fits(next) = judged else {
            return Err(PlanPlace(place as u64));
        };
        order = next;
    }
    let last = judge(order, EndSection::NUMBER);
    let Judged::Closes = last else {
        return Err(PlanPlace(sections as u64));
    };
    Ok(())
}

// Does a payload part reach beyond a store of so many octets? Offset and length may be any numbers:
// their sum is never made.
fn is_outside(store: u64, offset: u64, octets: u64) -> bool
    ensures { result ≡ ltb store (offset + octets) }
{
    if store < offset {
        return true;
    }
    store - offset < octets
}

// Is a payload of so many octets too short for its section's kind, or too long for any section?
fn is_wrong_size(number: u64, octets: u64) -> bool
    ensures { result ≡ is_wrong_size (record { number = number; offset = 0; length = octets }) }
{
    if MOST_PAYLOAD < octets {
        return true;
    }
    let known = least_payload_of(number);
    let Some(least) = known else {
        return false;
    };
    octets < least as u64
}

// 17, 18: the first place of a section that a test finds at fault.
fn first_at<F: Fn(u64, u64, u64) -> bool>(plan: &[u64], faulty: F) -> Result<(), PlanPlace>
    requires { F.IsAlwaysCallable faulty }
    ensures { (test : Part → Bool) → Decides (F.post faulty) test
        → result ≡ first_at test 0 (parts_of plan.now) }
{
    for place in 0..plan.len() / ROW {
        let i = place * ROW;
        if faulty(plan[i], plan[i + 1], plan[i + 2]) {
            return Err(PlanPlace(place as u64));
        }
    }
    Ok(())
}

// The octets of the whole message. So few sections, none too long, have no sum that wraps.
fn total_of(plan: &[u64]) -> u64
    requires { (length (parts_of plan.now) ≤ most_sections)
        × (first_at is_wrong_size 0 (parts_of plan.now) ≡ Ok tt) }
    ensures { result ≡ total_of (parts_of plan.now) }
{
    let mut total = (Indicator::WHOLE_SIZE + EndSection::WHOLE_SIZE) as u64;
    for place in 0..plan.len() / ROW {
        total += plan[place * ROW + 2] + HEADER_SIZE as u64;
    }
    total
}

// What is said of a plan, with a store and a destination of so many octets.
pub(crate) fn judge_plan(plan: &[u64], store: u64, room: u64) -> Result<u64, WriteRefusal>
    ensures { result ≡ judged_plan (parts_of plan.now) store room }
{
    if MOST_SECTIONS < plan.len() / ROW {
        return Err(WriteRefusal::TooManySections);
    }
    let order = first_misfit(plan);
    if let Err(place) = order {
        return Err(WriteRefusal::NotOneMessage(place));
    }
    let parts = first_at(plan, |_, offset, octets| is_outside(store, offset, octets));
    if let Err(place) = parts {
        return Err(WriteRefusal::OutsideStore(place));
    }
    let sizes = first_at(plan, |number, _, octets| is_wrong_size(number, octets));
    if let Err(place) = sizes {
        return Err(WriteRefusal::PayloadSize(place));
    }
    let total = total_of(plan);
    if room < total {
        return Err(WriteRefusal::NoRoom);
    }
    if MOST_OCTETS < total {
        return Err(WriteRefusal::NoRoom);
    }
    Ok(total)
}
