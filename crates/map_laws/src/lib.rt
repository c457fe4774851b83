//! What maps and states are determined by, and that a map from which no circle of groups can be made better off is the
//! best: laws over definitions. Nothing runs here.
#![tactic(auto)]

mod laws;

pub use laws::{
    backs_agree, batches_agree, best_below_if_best, best_below_if_free, best_below_is_one,
    best_if_free, cuts_agree, ends_agree, group_best_is_one,
};
