// Settlement and reconciliation with the system operator: rules, section 9 (methodology, equations 1 and 2).
#![tactic(auto)]

mod medians;
mod paying;
mod table;

pub use medians::{Period, gap_between};
pub use paying::{MOST_AMOUNT, pay, reconcile, settle};
pub use table::{MOST_HUNDREDTHS, growth_at};
