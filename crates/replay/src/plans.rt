// Plans listed, entered, read and written.
ghost use Rattle.std.specs.Prelude.{◌≤◌};

use super::beside::{listed_or_none, plan_or_zero};
use super::desk::KEPT;
use super::fields::{cause_at, u16_at, u32_at};
use super::{returns, say, sums};
use outage::Log;
use plan::{Plan, list_plan};
use plan_entering::enter_plan;
use plan_message::{read_plan, write_plan};
use std::io;

// A plan from `at` on, which ends at `end`, with its cause or before it.
fn plan_at(s: &[u8], at: usize, end: usize) -> Plan
    requires { at ≤ 4 }
{
    Plan {
        start: u32_at(s, at),
        length: u32_at(s, at + 4),
        step: u16_at(s, at + 8),
        count: u16_at(s, at + 10),
        mw: u16_at(s, at + 12),
        cause: cause_at(s, at + 14, end),
    }
}

// The outages of the plan behind the regime end.
pub(crate) fn list(rt: &impl Print, s: &[u8]) -> io::Result<()> {
    let found = list_plan(u32_at(s, 0), plan_at(s, 4, s.len()));
    let (n, outage) = say::number_at(found);
    let listed = listed_or_none(found);
    let sum = sums::more_of_entries(0, &listed.entries);
    println!(rt; "{n} {outage} {} {sum}", listed.count)
}

pub(crate) fn enter(rt: &impl Print, s: &[u8], log: &mut Log) -> io::Result<()> {
    let (n, outage) = say::number_at(enter_plan(log, plan_at(s, 0, s.len())));
    println!(rt; "{n} {outage} {} {}", log.count, sums::more_of_log(0, log))
}

pub(crate) fn read(rt: &impl Print, s: &[u8]) -> io::Result<()> {
    let read = read_plan(s);
    let (n, at) = say::number_at(read);
    let plan = plan_or_zero(read);
    print!(rt; "{n} {at} {} {} {}", plan.start, plan.length, plan.step)?;
    println!(rt; " {} {} {}", plan.count, plan.mw, plan.cause)
}

// A plan written into a buffer of the room asked for behind it, and its sum said.
pub(crate) fn write(rt: &impl Print, s: &[u8]) -> io::Result<()> {
    let mut space = returns::room::<KEPT>();
    let end = if s.len() < 19 { 14 } else { 15 };
    let n = (u32_at(s, end) as usize).min(space.len());
    let plan = plan_at(s, 0, end);
    returns::lent(rt, &mut space[..n], false, |out| write_plan(plan, out))
}
