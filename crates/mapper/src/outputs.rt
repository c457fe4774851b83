//! What a run is lent to tell others by.

use crate::Told;

/// What a run is lent: both outputs, the pace, and how many of the row's first cells hold a note.
#[derive(Drop)]
pub struct Outputs<'o, 'm, 'p, K, M> {
    /// It gets the lines of control text.
    pub out: &'o mut K,
    /// It gets the texts of the maps.
    pub maps: &'m mut K,
    pub pace: &'p mut M,
    pub told: Told,
}
