//! A good map repaired for changed demands and capacities.
#![tactic(auto)]

mod laws;
mod marks;
mod reaching;
mod renewal;
mod repairing;
mod trying;

pub use laws::repairs_agree;
pub use renewal::Renewal;
pub use repairing::{Effort, repair, resume};
