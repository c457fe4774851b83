//! Workers, which answer datagrams, and messages of conversations, from the newest map that they look at.
ghost use Rattle.std.specs.Prelude.{◌≡◌, ◌≤◌, ◌+◌, ◌⊎◌, false, length, max, Some};
ghost use mathlib.Core.List.{IsPrefix};
ghost use Rattle.outside.specs.Faults.{raised};
ghost use Rattle.outside.specs.declared.limits.TheConstants.{LARGEST_REPLY};
ghost use Rattle.published_map.specs.Version.{IsVersion};
ghost use Rattle.lane_model.specs.Lanes.{draw, following};
ghost use Rattle.lane_model.specs.Replies.{is_silent, reply_of};
ghost use Rattle.name_workers.specs.Looked.{looked_by};
ghost use Rattle.name_workers.specs.Moments.{eyes_of};
ghost use Rattle.name_workers.specs.Worker.{IsAnswer};

use addr_text::Addr;
use answer_core::{Way, reply, silent};
use arrayvec::ArrayVec;
use lane_model::{draw_of, next_number};
use map_cell::{CellFault, Door, Naming, Note, Viewer};
use outside::LARGEST_REPLY;
use published_map::MapVersion;

/// A worker of a lane: its viewer, its number, and the number of its next datagram, from 0.
#[derive(Drop)]
pub struct Worker<J: Naming> {
    pub viewer: Viewer<J>,
    pub number: u8,
    pub count: u64,
}

/// A reply in the room that was lent for it, and the serial of its version.
#[derive(Drop)]
struct Replied<'r> {
    room: &'r mut ArrayVec<u8, LARGEST_REPLY>,
    serial: u64,
}

/// Puts the reply of a version to octets that have one, by a way, into the room, which is cleared first.
fn reply_by<'r>(
    version: &MapVersion,
    from: Addr,
    octets: &[u8],
    draw: u64,
    way: Way,
    room: &'r mut ArrayVec<u8, LARGEST_REPLY>,
) -> Replied<'r>
    requires version { IsVersion version.now }
    requires spoken { is_silent octets.now ≡ false }
    ensures lent { result.room.ghost_name ≡ room.entry.ghost_name }
    ensures reply { reply_of version.now from octets.now draw way ≡ Some result.room.now.items }
    ensures short { length result.room.now.items ≤ LARGEST_REPLY }
    ensures serial { result.serial ≡ version.now.serial }
{
    let _ = reply(version, from, octets, draw, way, room);
    Replied {
        room,
        serial: version.serial(),
    }
}

/// Does nothing. It ties the room that is given back to whoever lent it.
fn take_back(room: &mut ArrayVec<u8, LARGEST_REPLY>)
    ensures { room.new ≡ room.old }
{}

impl<J: Naming> Worker<J> {
    /// A worker of that number, which has had no datagram. Numbers from 0 to 15 have draws that begin at different places;
    /// those of 16 are those of 0 again.
    pub fn new(viewer: Viewer<J>, number: u8) -> Worker<J>
        ensures { (result.viewer ≡ viewer) × (result.number ≡ number) × (result.count ≡ 0) }
    {
        Worker {
            viewer,
            number,
            count: 0,
        }
    }

    /// Its viewer, with what that has seen and was told by then.
    pub fn into_viewer(self) -> Viewer<J>
        ensures { result ≡ self.viewer }
    {
        self.viewer
    }

    /// The greatest serial that it used or was told of.
    pub fn known(&self) -> u64
        ensures { result + 1 ≡ length self.now.viewer.heard }
    {
        self.viewer.known()
    }

    /// Tells it of a published map, and of no later one.
    pub fn learn<D: Door>(&mut self, door: &mut D, note: &Note<J>)
        ensures seen { self.new.viewer.seen ≡ self.old.viewer.seen }
        ensures kept { IsPrefix self.old.viewer.heard self.new.viewer.heard }
        ensures note { IsPrefix note.now.front self.new.viewer.heard }
        ensures one { (self.new.viewer.heard ≡ self.old.viewer.heard)
            ⊎ (self.new.viewer.heard ≡ note.now.front) }
        ensures same { (self.new.number ≡ self.old.number) × (self.new.count ≡ self.old.count) }
        ensures counts { ((D.told door.new).faults ≡ (D.told door.old).faults)
            × ((D.told door.new).looks ≡ (D.told door.old).looks)
            × ((D.told door.new).asked ≡ (D.told door.old).asked) }
        ensures greatest { (D.told door.new).greatest + 1
            ≡ max ((D.told door.old).greatest + 1) (length self.new.viewer.heard) }
    {
        door.learn(&mut self.viewer, note);
    }

    /// Answers a datagram, or a message of a stream, by one map that is no older than what is known, and gives that map's
    /// serial; None where the octets have no reply, and no look is made then. The buffer is cleared first.
    ///
    /// # Errors
    ///
    /// `CellFault` where the look was refused; what was seen and told stays.
    #[tactic(auto, unfolding(lane_model::specs::Replies::is_silent))]
    pub fn answer<D: Door>(
        &mut self,
        door: &mut D,
        from: Addr,
        octets: &[u8],
        way: Way,
        out: &mut ArrayVec<u8, LARGEST_REPLY>,
    ) -> Result<Option<u64>, CellFault>
        ensures answer { IsAnswer self.old.number
            self.old.count from octets.now way (eyes_of D.told self.old.viewer door.old)
            (eyes_of D.told self.new.viewer door.new) out.new.items result }
        ensures looks { (D.told door.new).looks
            ≡ raised (D.told door.old).looks (looked_by octets.now) }
        ensures count { (self.new.count ≡ following self.old.count)
            × (self.new.number ≡ self.old.number) }
        ensures short { length out.new.items ≤ LARGEST_REPLY }
        ensures asked { (D.told door.new).asked ≡ (D.told door.old).asked }
    {
        let draw = draw_of(self.number, self.count);
        self.count = next_number(self.count);
        out.clear();
        if silent(octets) {
            return Ok(None);
        }
        let room = &mut *out;
        let looked = door.look(
            &mut self.viewer,
            move |m: &MapVersion| -> Replied
                requires { IsVersion m.now × (is_silent octets.now ≡ false) }
                ensures lent { result.room.ghost_name ≡ room.entry.ghost_name }
                ensures reply { reply_of m.now from octets.entry.now draw way
                    ≡ Some result.room.now.items }
                ensures short { length result.room.now.items ≤ LARGEST_REPLY }
                ensures serial { result.serial ≡ m.now.serial }
            { reply_by(m, from, octets, draw, way, room) },
        );
        match looked {
            Ok(Replied { room, serial }) => {
                take_back(room);
                Ok(Some(serial))
            }
            Err(fault) => {
                out.clear();
                Err(fault)
            }
        }
    }
}
