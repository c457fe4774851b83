//! The page follows from what the program promises, and two runs over the same octets agree.
ghost use Rattle.headline.specs.Laws.{Agree, OneIsRepaired, Promised, Same};

/// Of whatever run the promise of `glb` holds, the headline does.
pub fn promised()
    ensures { Promised }
{}

/// Two runs of `serve` at status 0, each with one feed, over the same octets of a topology and of a feed put the same maps
/// and the same lines, unless one says that memory was wanting.
pub fn agreed()
    ensures { Agree }
{}

/// Lines that are good and the best by the page's words are so by the program's, and all repaired maps of a map have the same
/// lines for the same numbers.
pub fn alike()
    ensures same { Same }
    ensures one { OneIsRepaired }
{}
