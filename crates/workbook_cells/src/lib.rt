// The 28 cells of a period: exported, and read back. Rules 19.5 to 19.8.
#![tactic(auto)]

mod exporting;
mod reading;

pub use exporting::export_period;
pub use reading::{CellsRead, read_cells};
