//! What a source over a reader of std keeps of its calls.
ghost use Rattle.std.specs.Prelude.{◌≡◌, ◌≢◌, ◌↔◌, ◌++◌, ◌∷◌, [], true, false, length};
ghost use Rattle.outside.specs.Faults.{raised};
ghost use Rattle.outside.specs.Source.{IsRead};
ghost use Rattle.edges.specs.Streams.{unheard};

use outside::Read;
use past_log::{NameEvent, SourceEvent, SourcePast};
use std::marker::Model;

/// Whether a source has ended, how many of its calls failed, and what it was asked and answered.
#[derive(Drop)]
pub(crate) struct Heard {
    is_ended: bool,
    faults: u64,
    past: SourcePast,
}

impl Model for Heard {
    ghost use Rattle.std.specs.Prelude.{◌≡◌, None};
    ghost use Rattle.edges.specs.Streams.{Hearing};

    ghost Value = { Hearing };

    ghost view = { λ h. record { is_ended = h.is_ended; faults = h.faults; fed = h.past.told } };

    ghost invariant = { λ h. (h.past.told.left ≡ None) × (h.past.told.is_ended ≡ h.is_ended) };
}

impl Heard {
    /// Nothing so far.
    pub fn new() -> Heard
        ensures { result ≡ unheard }
    {
        Heard {
            is_ended: false,
            faults: 0,
            past: SourcePast::new(),
        }
    }

    /// Whether it has ended.
    pub fn is_ended(&self) -> bool
        ensures { result ≡ self.now.is_ended }
    {
        self.is_ended
    }

    /// Counts a call that failed.
    pub fn count_fault(&mut self)
        ensures { self.new ≡ record self.old { faults = raised self.old.faults 1 } }
    {
        self.faults = self.faults.saturating_add(1);
    }

    /// Keeps an opening under a name.
    pub fn note_name(&mut self, name: &str)
        ensures { self.new ≡ record self.old {
          fed = record self.old.fed { names = self.old.fed.names ++ name.now ∷ [] };
        } }
    {
        self.past.note(&NameEvent { name });
    }

    /// Keeps a read that was handed this buffer and left it so. Where the source has ended it is one more end.
    pub fn note(&mut self, buffer: &[u8], read: Read)
        requires { read ≢ Read.End → self.old.is_ended ≡ false }
        ensures read { IsRead (length buffer.now) read buffer.now self.old.fed self.new.fed }
        ensures ended { (self.new.is_ended ≡ true) ↔ (read ≡ Read.End) }
        ensures counted { read ≡ Read.Failed → self.new.faults ≡ raised self.old.faults 1 }
        ensures stays { read ≢ Read.Failed → self.new.faults ≡ self.old.faults }
    {
        if read == Read::End {
            self.is_ended = true;
        }
        if read == Read::Failed {
            self.faults = self.faults.saturating_add(1);
        }
        self.past.note(&SourceEvent { buffer, read });
    }
}
