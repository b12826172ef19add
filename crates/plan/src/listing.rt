// The outages of a plan, one by one: rule 18.4.
ghost use Rattle.std.specs.Prelude.{◌≡◌, true};
ghost use Rattle.refusals.specs.Refusals.{answer_number, first_applicable};
ghost use Rattle.entries.specs.Row.{good_regime_end};
ghost use Rattle.plan.specs.Plan.{good_plan};
ghost use Rattle.plan.specs.Calls.{ListGives, outage_rows};

use super::Plan;
use entries::{Entry, good_loss, good_regime_end, good_span};
use refusals::{Refusal, RefusedAt};

// The outages in order of start, and how many there are.
#[derive(Clone, Copy, Debug, PartialEq, Eq)]
pub struct Listed {
    pub entries: [Entry; Plan::MOST_OUTAGES],
    pub count: usize,
}

// The first rule that an outage breaks by itself, whatever the log.
fn check_outage(e: Entry, regime_end: u32) -> Result<(), Refusal>
    ensures { answer_number result ≡ first_applicable (outage_rows regime_end e) }
{
    if !good_span(e, regime_end) {
        return Err(Refusal::BadSpan);
    }
    if !good_loss(e) {
        return Err(Refusal::BadPower);
    }
    Ok(())
}

// The outages of a plan in range, for a regime end in range.
fn list_outages(regime_end: u32, plan: Plan) -> Result<Listed, RefusedAt>
    requires { (good_regime_end regime_end ≡ true) × (good_plan plan ≡ true) }
    ensures { ListGives regime_end plan result }
{
    let mut entries = [Entry::zero(); Plan::MOST_OUTAGES];
    for k in 0..plan.count {
        let slot = usize::from(k);
        let e = plan.outage(k);
        check_outage(e, regime_end).map_err(|why| RefusedAt { why, at: slot + 1 })?;
        entries[slot] = e;
    }
    Ok(Listed {
        entries,
        count: usize::from(plan.count),
    })
}

// The outages that a plan means, each once and in order, for a regime end; or why not, and which outage fails.
pub fn list_plan(regime_end: u32, plan: Plan) -> Result<Listed, RefusedAt>
    ensures { ListGives regime_end plan result }
{
    if !good_regime_end(regime_end) {
        return Err(RefusedAt {
            why: Refusal::BadBook,
            at: 0,
        });
    }
    if !plan.is_good() {
        return Err(RefusedAt {
            why: Refusal::BadPlan,
            at: 0,
        });
    }
    list_outages(regime_end, plan)
}
