//! What these sums say of other maps.
ghost use Rattle.place_counts.specs.Laws.{PlacesAreBest};

/// Where what is held is group-best, no feasible and stable map has more of all groups together at the places up to any one
/// than the numbers that are written of these.
pub fn places_are_best()
    ensures { PlacesAreBest }
{}
