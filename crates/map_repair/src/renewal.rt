//! What a repair goes from and to.

use map_model::{Instance, MapLines};
use move_up::Asked;

/// What a repair goes from and to: from an instance with its map, and its offers by their trees, to a new instance.
#[derive(Clone, Copy, Debug)]
pub struct Renewal<'i> {
    pub old: &'i Instance,
    pub map: &'i MapLines,
    pub new: &'i Instance,
    pub asked: &'i Asked,
}
