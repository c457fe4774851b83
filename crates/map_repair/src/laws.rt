//! Laws of repair.
ghost use Rattle.map_repair.specs.Laws.{RepairsAgree};

/// The repaired map of a map for other demands and capacities is one, whatever the order of proposals: any program that gives
/// what `repair` promises gives the same.
pub fn repairs_agree()
    ensures { RepairsAgree }
{}
