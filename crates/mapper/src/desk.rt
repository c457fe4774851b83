//! What a run works on, and what is done there.
ghost use Rattle.std.specs.Prelude.{◌≡◌, ◌≢◌, ◌<◌, ◌≤◌, ◌+◌, ◌-◌, ◌^◌, [], List, IfSome, length};
ghost use Rattle.outside.specs.Faults.{BothTell};
ghost use Rattle.outside.specs.Sink.{IsPut};
ghost use Rattle.map_model.specs.Batch.{IsBatch};
ghost use Rattle.published_map.specs.Version.{Version};
ghost use Rattle.mapper.specs.Coming.{BothPut, Came};
ghost use Rattle.mapper.specs.Control.{Course, before_commit};
ghost use Rattle.mapper.specs.Deeds.{DeedWorks, MayBeDone, raises};
ghost use Rattle.mapper.specs.Desks.{IsOutAlone, IsPaceAlone, IsWhole, Keeps, desk_told};
ghost use Rattle.mapper.specs.Items.{CommitWorks, with_marked};
ghost use Rattle.mapper.specs.Lending.{HasFault, HasNoFault};
ghost use Rattle.mapper.specs.Notes.{AreTold};
ghost use Rattle.mapper.specs.Sayings.{text_of};
ghost use Rattle.mapper.specs.Scenes.{IsAt, Scene};
ghost use Rattle.mapper.specs.Texts.{marked};
ghost use Rattle.mapper.specs.Texts as text;
ghost use Rattle.mapper.specs.Words.{map_text};

use crate::deed::Deed;
use crate::maps::Maps;
use crate::saying::{with_mark, write_saying};
use crate::{Outputs, Saying, Spoken, Told};
use demand_feed::Batch;
use map_cell::{Naming, NoteRow};
use map_model::{Proposals, Steps};
use no_memory::NoMemory;
use outside::{Pace, Put, Sink};
use std::sync::Wait;

/// What a run works on: the published maps, the row into which their notes go, room for a line, and what it is lent to tell
/// others by.
#[derive(Drop)]
pub(crate) struct Desk<'r, 'x, 'n, 'o, 'm, 'p, R, J: Naming, K, M> {
    pub rt: &'r R,
    pub published: &'x mut Maps<J>,
    pub row: &'n NoteRow<J>,
    pub line: Spoken,
    pub to: Outputs<'o, 'm, 'p, K, M>,
}

impl<'r, 'x, 'n, 'o, 'm, 'p, R, J: Naming, K, M> Desk<'r, 'x, 'n, 'o, 'm, 'p, R, J, K, M> {
    /// One with room for a line.
    pub fn new(
        rt: &'r R,
        published: &'x mut Maps<J>,
        row: &'n NoteRow<J>,
        to: Outputs<'o, 'm, 'p, K, M>,
    ) -> Desk<'r, 'x, 'n, 'o, 'm, 'p, R, J, K, M>
        ensures published { (result.published.ghost_name ≡ published.entry.ghost_name)
            × (result.published.now ≡ published.entry.now) }
        ensures to { result.to ≡ to.entry }
    {
        Desk {
            rt,
            published,
            row,
            line: Spoken::new(),
            to,
        }
    }

    /// How many of the row's first cells hold a note.
    pub fn told(&self) -> Told
        ensures { result ≡ self.now.to.told }
    {
        self.to.told
    }
}

impl<R: Wait, J: Naming, K: Sink, M: Pace> Desk<'_, '_, '_, '_, '_, '_, R, J, K, M> {
    /// Puts a line of control text, behind its feed's mark if it has one.
    fn say(&mut self, mark: Option<u8>, saying: &Saying) -> Put
        requires { IfSome mark (λ feeder. feeder < 4) }
        ensures alone { IsOutAlone self.old self.new }
        ensures put { BothTell (K.told self.old.to.out.now).past (K.told self.new.to.out.now).past
            (IsPut result (marked mark (text_of saying.now))) }
        ensures keeps { Keeps K.told self.old self.new }
        ensures cause { result ≡ Put.Failed → HasFault K.told self.old.to self.new.to }
        ensures stays { result ≢ Put.Failed → HasNoFault K.told self.old.to self.new.to }
    {
        write_saying(&mut self.line, saying);
        match mark {
            None => self.to.out.put(self.line.as_slice()),
            Some(feeder) => {
                let text = with_mark(feeder, &self.line);
                self.to.out.put(text.as_slice())
            }
        }
    }

    /// Puts the newest map's text, and then the line that it is published. Then all who look are told of it.
    fn announce(&mut self, mark: Option<u8>, serial: u64) -> Put
        requires { IfSome mark (λ feeder. feeder < 4) }
        ensures same { (self.new.published.now ≡ self.old.published.now)
            × (self.new.to.pace ≡ self.old.to.pace) }
        ensures put { BothPut result (map_text self.old.published.now.newest)
            (marked mark (text.published serial))
            (K.told self.old.to.maps.now).past (K.told self.new.to.maps.now).past
            (K.told self.old.to.out.now).past (K.told self.new.to.out.now).past }
        ensures told { result ≢ Put.Failed → (earlier : List Version)
            → length self.old.published.now.history ≡ length earlier + 1
            → AreTold earlier self.old.to.told
            → AreTold self.old.published.now.history self.new.to.told }
        ensures keeps { Keeps K.told self.old self.new }
        ensures cause { result ≡ Put.Failed → HasFault K.told self.old.to self.new.to }
        ensures stays { result ≢ Put.Failed → HasNoFault K.told self.old.to self.new.to }
    {
        match self.to.maps.put(self.published.text()) {
            Put::Done => {}
            Put::Failed => return Put::Failed,
        }
        match self.say(mark, &Saying::Published(serial)) {
            Put::Done => {
                let note = self.published.note();
                self.to.told.tell(self.rt, self.row, note);
                Put::Done
            }
            Put::Failed => Put::Failed,
        }
    }

    /// Publishes the map that a batch leads to, which is not empty.
    fn publish(&mut self, mark: Option<u8>, batch: &Batch) -> Put
        requires mark { IfSome mark (λ feeder. feeder < 4) }
        requires ids { IsBatch self.old.published.now.newest.plan.market batch.now }
        requires some { batch.now ≢ [] }
        requires serial { self.old.published.now.newest.serial < 2 ^ 64 - 1 }
        ensures came { (before : Scene) (base c : Course) → base.out ≡ c.out → base.maps ≡ c.maps
            → IsAt before c (desk_told K.told M.told self.old) → Came result before base
            (CommitWorks mark batch.now c) (desk_told K.told M.told self.new) }
        ensures keeps { Keeps K.told self.old self.new }
        ensures serial { self.new.published.now.newest.serial
            ≤ self.old.published.now.newest.serial + 1 }
        ensures cause { result ≡ Put.Failed → HasFault K.told self.old.to self.new.to }
        ensures stays { result ≢ Put.Failed → IsWhole K.told self.old self.new }
    {
        let mut steps = Steps::<Proposals>::new();
        match self.published.commit(self.rt, batch, &mut steps) {
            Ok(serial) => self.announce(mark, serial),
            Err(NoMemory) => self.say(mark, &Saying::NoMemory),
        }
    }

    /// Calls the pace ahead of a line that ends a batch.
    fn call_pace(&mut self)
        ensures alone { IsPaceAlone self.old self.new }
        ensures paced { (before : Scene) (c : Course)
            → IsAt before c (desk_told K.told M.told self.old)
            → IsAt before (before_commit c) (desk_told K.told M.told self.new) }
    {
        let newest = self.published.serial();
        self.to.pace.before(newest);
    }

    /// Does what is to be done, for a feed with that mark, if it has one.
    pub fn work(&mut self, mark: Option<u8>, deed: &Deed<'_>) -> Put
        requires mark { IfSome mark (λ feeder. feeder < 4) }
        requires may { MayBeDone self.old.published.now.newest.plan.market deed.now }
        requires serial { self.old.published.now.newest.serial < 2 ^ 64 - 1 }
        ensures came { (before : Scene) (c : Course)
            → IsAt before c (desk_told K.told M.told self.old)
            → Came result before c (DeedWorks mark deed.now c) (desk_told K.told M.told self.new) }
        ensures keeps { Keeps K.told self.old self.new }
        ensures serial { self.new.published.now.newest.serial
            ≤ self.old.published.now.newest.serial + raises deed.now }
        ensures cause { result ≡ Put.Failed → HasFault K.told self.old.to self.new.to }
        ensures stays { result ≢ Put.Failed → IsWhole K.told self.old self.new }
    {
        match deed {
            Deed::Nothing => Put::Done,
            Deed::Say(saying) => self.say(mark, saying),
            Deed::SayOfBatch(saying) => {
                self.call_pace();
                self.say(mark, saying)
            }
            Deed::Publish(batch) => {
                self.call_pace();
                self.publish(mark, batch)
            }
        }
    }
}
