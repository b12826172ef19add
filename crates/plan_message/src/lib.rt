// A plan as a message of one field, read and written: rules 18.8 and 18.9.
#![tactic(auto)]

ghost use Rattle.std.specs.Prelude.{◌≡◌, ◌+◌, ◌≤◌, length, Some};
ghost use Rattle.codec.specs.Buffers.{Wrote};
ghost use Rattle.plan_message.specs.Form.{from_plan, numbers, plan_bytes, plan_item};
ghost use Rattle.plan_message.specs.Calls.{ReadPlanGives, WritePlanGives};
ghost use Rattle.plan_message.specs.Steps.{Begins, CauseIn, malformed_at, message_bytes};

use codec::{is_field, number, put, put_head};
use plan::Plan;
use refusals::{Refusal, RefusedAt};

// The message of a plan: its one field, and its sizes.
#[derive(Clone, Copy, Debug, PartialEq, Eq)]
pub struct PlanMessage;

impl PlanMessage {
    pub const TAG: u8 = 30;

    // The cause that is left out.
    pub const PLAIN: u8 = 1;

    // How many bytes the message of a plan has with its cause left out, and with it.
    pub const PLAIN_BYTES: usize = 17;

    pub const BYTES: usize = 18;

    pub const MOST_BYTES: usize = 8_192;
}

// 13, and the place.
fn malformed(at: usize) -> RefusedAt
    ensures { result ≡ malformed_at at }
{
    RefusedAt {
        why: Refusal::Malformed,
        at,
    }
}

// How many bytes the message of a plan has.
fn message_bytes(plan: Plan) -> usize
    ensures { result ≡ message_bytes plan }
{
    if plan.cause == PlanMessage::PLAIN {
        PlanMessage::PLAIN_BYTES
    } else {
        PlanMessage::BYTES
    }
}

// The cause in the field of a plan that the bytes begin with: 1 where it is left out. A 1 that is written out is none.
fn cause_in(s: &[u8]) -> Option<u8>
    ensures { CauseIn s.now result }
{
    if is_field(s, 0, PlanMessage::TAG, 14) {
        return Some(PlanMessage::PLAIN);
    }
    if !is_field(s, 0, PlanMessage::TAG, 15) {
        return None;
    }
    let cause = number(s, 17, 1) as u8;
    (cause != PlanMessage::PLAIN).then_some(cause)
}

// The plan of this cause in the field that the bytes begin with.
fn first_plan(s: &[u8], cause: u8) -> Plan
    requires { Begins s.now cause }
    ensures { plan_item.look s.now ≡ Some result }
{
    let start = number(s, 3, 4);
    let length = number(s, 7, 4);
    let step = number(s, 11, 2);
    let count = number(s, 13, 2);
    let mw = number(s, 15, 2);
    Plan {
        start: start as u32,
        length: length as u32,
        step: step as u16,
        count: count as u16,
        mw: mw as u16,
        cause,
    }
}

// The plan that all of the bytes are the message of; else 13, with the place.
pub fn read_plan(s: &[u8]) -> Result<Plan, RefusedAt>
    ensures { ReadPlanGives s.now result }
{
    if PlanMessage::MOST_BYTES < s.len() {
        return Err(malformed(PlanMessage::MOST_BYTES));
    }
    let Some(cause) = cause_in(s) else {
        return Err(malformed(0));
    };
    let plan = first_plan(s, cause);
    let bytes = message_bytes(plan);
    if bytes < s.len() {
        return Err(malformed(bytes));
    }
    Ok(plan)
}

// The numbers of a plan but for its cause, from `at` on.
fn put_numbers(plan: Plan, out: &mut [u8], at: usize) -> usize
    requires { at + 14 ≤ length out.old }
    ensures { Wrote out.old at (numbers.put (from_plan plan).0) out.new result }
{
    let b = put(out, at, 4, plan.start as u64);
    let c = put(out, b, 4, plan.length as u64);
    let d = put(out, c, 2, plan.step as u64);
    let e = put(out, d, 2, plan.count as u64);
    put(out, e, 2, plan.mw as u64)
}

// The message of a plan at the front of a buffer with room for it.
fn put_plan(plan: Plan, out: &mut [u8]) -> usize
    requires { message_bytes plan ≤ length out.old }
    ensures { Wrote out.old 0 (plan_bytes plan) out.new result }
{
    if plan.cause == PlanMessage::PLAIN {
        let at = put_head(out, 0, PlanMessage::TAG, 14);
        return put_numbers(plan, out, at);
    }
    let at = put_head(out, 0, PlanMessage::TAG, 15);
    let last = put_numbers(plan, out, at);
    put(out, last, 1, plan.cause as u64)
}

// The message of a plan, at the front of the buffer, and its length; or 14, and not a byte written.
pub fn write_plan(plan: Plan, out: &mut [u8]) -> Result<usize, Refusal>
    ensures { WritePlanGives plan out.old result out.new }
{
    if out.len() < message_bytes(plan) {
        return Err(Refusal::NoRoom);
    }
    Ok(put_plan(plan, out))
}
