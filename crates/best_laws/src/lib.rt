//! What runs keep of the stable maps within their start, so that the map of a fresh run is group-best: laws over
//! definitions. Nothing runs here.
#![tactic(auto)]
