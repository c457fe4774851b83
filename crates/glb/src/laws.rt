//! Laws of runs over the same files and feeds, or of `large` over as many groups.
ghost use Rattle.glb.specs.Laws.{MapsAgree, RepairsAgree, ServesAgree, ServesCome, ServesPublish, ServesRepeat, SummariesAgree};

/// What `map` and `repair` write is determined by their files. What `serve` publishes is determined by its topology and by the
/// octets of its feed, however these were cut, as long as no commit lacked memory: so servers that read one log agree. With several
/// feeds it is determined by the batches that were published, in their order. What `large` finds is determined by its number of
/// groups, but for the number of proposals.
pub fn runs_agree()
    ensures maps { MapsAgree }
    ensures repairs { RepairsAgree }
    ensures comes { ServesCome }
    ensures serves { ServesAgree }
    ensures publish { ServesPublish }
    ensures repeat { ServesRepeat }
    ensures summaries { SummariesAgree }
{}
