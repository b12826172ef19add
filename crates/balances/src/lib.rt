// Carried balances and the assessment of years' amounts: rules 8.1 to 8.4 (SC3).
#![tactic(auto)]

mod assessing;
mod carrying;

pub use assessing::{Figures, Yearly, assess, assess_years};
