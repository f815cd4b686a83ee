//! Exact decimals.
#![tactic(auto)]

mod dec;
mod drivers;
pub mod laws;
mod line;
mod mantissa;
mod order;
mod read;
mod rounding;
mod scan;
mod text;
mod units;

pub use dec::Dec;
pub use drivers::rosenbrock;
pub use read::NumFault;
pub use rounding::divide_round;
pub use units::{OffGrid, Unit, from_units, to_units, unit_of};
