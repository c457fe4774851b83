//! Lines of control text, written without memory.
ghost use Rattle.std.specs.Prelude.{◌≡◌, ◌≤◌, ◌<◌, ◌+◌, ◌*◌, ◌++◌, [], length, decimal, option_map, IfSome};
ghost use Rattle.hex.specs.Hex.{encode_lower};
ghost use Rattle.outside.specs.declared.limits.TheConstants.{LARGEST_REPLY};
ghost use Rattle.mapper.specs.Sayings.{text_of};
ghost use Rattle.mapper.specs.Texts.{digits_of};
ghost use Rattle.mapper.specs.Texts as text;
ghost use Rattle.mapper.specs.declared.saying.TheConstants.{LINE_ROOM};

use arrayvec::ArrayVec;
use demand_feed::Refusal;
use itoa::Buffer;
use outside::LARGEST_REPLY;

/// Room for any line of control text. The longest is that of a reply: 6 + 1 + 20 + 1 + 2,600 octets, and its LF.
pub const LINE_ROOM: usize = 2_640;

/// Sums over all groups, and the number of nodes that are full.
#[derive(Clone, Copy, Debug, PartialEq, Eq)]
pub struct Totals {
    /// Units that are placed.
    pub placed: u64,
    /// Units of demand that are not.
    pub unplaced: u64,
    /// Nodes with as many units as their capacity.
    pub full: u64,
}

/// A line of control text.
#[derive(Debug, Drop)]
pub enum Saying {
    /// The line of that number is refused.
    Refused(u64, Refusal),
    /// The version of that serial is the newest.
    Published(u64),
    /// The batch is dropped, of which so many lines were refused.
    Spoiled(u64),
    /// The batch is dropped for want of memory.
    NoMemory,
    /// The reply of the version of that serial, if it has one.
    Answer(u64, Option<ArrayVec<u8, LARGEST_REPLY>>),
    /// The totals of the version of that serial.
    Show(u64, Totals),
}

/// A line of control text, as it is written.
pub type Spoken = ArrayVec<u8, LINE_ROOM>;

/// Room for any line behind a mark of two octets.
const MARKED_ROOM: usize = 2_642;

/// A line of control text behind its feed's mark.
pub(crate) type Marked = ArrayVec<u8, MARKED_ROOM>;

fn push(line: &mut Spoken, octets: &[u8])
    requires { length line.old.items + length octets.now ≤ LINE_ROOM }
    ensures { line.new.items ≡ line.old.items ++ octets.now }
{
    let _ = line.try_extend_from_slice(octets);
}

/// Appends a number in decimal digits.
fn push_number(line: &mut Spoken, number: u64)
    requires { length line.old.items + 20 ≤ LINE_ROOM }
    ensures digits { line.new.items ≡ line.old.items ++ decimal number }
    ensures short { length line.new.items ≤ length line.old.items + 20 }
{
    let mut digits = Buffer::new();
    push(line, digits.format(number).as_bytes());
}

/// Appends the hexadecimal digits of octets.
fn push_digits(line: &mut Spoken, octets: &[u8])
    requires room { length line.old.items + 2600 ≤ LINE_ROOM }
    requires few { length octets.now ≤ LARGEST_REPLY }
    ensures digits { line.new.items ≡ line.old.items ++ encode_lower octets.now }
    ensures short { length line.new.items ≤ length line.old.items + 2600 }
{
    let mut digits = [0u8; 2 * LARGEST_REPLY];
    let size = 2 * octets.len();
    let _ = hex::encode_to_slice(octets, &mut digits[..size]);
    push(line, &digits[..size]);
}

/// Appends the digits of a reply, or a dash where there is none.
fn push_reply(line: &mut Spoken, reply: &Option<ArrayVec<u8, LARGEST_REPLY>>)
    requires { length line.old.items + 2600 ≤ LINE_ROOM }
    ensures digits { line.new.items
        ≡ line.old.items ++ digits_of (option_map (λ r. r.items) reply.now) }
    ensures short { length line.new.items ≤ length line.old.items + 2600 }
{
    match reply {
        Some(octets) => push_digits(line, octets.as_slice()),
        None => push(line, b"-"),
    }
}

/// Writes that a line is refused.
#[tactic(auto, unfolding(crate::specs::Texts::refused))]
fn write_refused(line: &mut Spoken, number: u64, why: Refusal)
    requires { line.old.items ≡ [] }
    ensures { line.new.items ≡ text.refused number why }
{
    push(line, b"refused ");
    push_number(line, number);
    push(line, b" ");
    push(line, why.words().as_bytes());
    push(line, b"\n");
}

/// Writes that a version is the newest.
#[tactic(auto, unfolding(crate::specs::Texts::published))]
fn write_published(line: &mut Spoken, serial: u64)
    requires { line.old.items ≡ [] }
    ensures { line.new.items ≡ text.published serial }
{
    push(line, b"published ");
    push_number(line, serial);
    push(line, b"\n");
}

/// Writes that lines were refused since the last commit line.
#[tactic(auto, unfolding(crate::specs::Texts::spoiled))]
fn write_spoiled(line: &mut Spoken, lines: u64)
    requires { line.old.items ≡ [] }
    ensures { line.new.items ≡ text.spoiled lines }
{
    push(line, b"refused commit lines ");
    push_number(line, lines);
    push(line, b"\n");
}

/// Writes that memory was wanting in a commit.
#[tactic(auto, unfolding(crate::specs::Texts::memory))]
fn write_memory(line: &mut Spoken)
    requires { line.old.items ≡ [] }
    ensures { line.new.items ≡ text.memory }
{
    push(line, b"refused commit memory\n");
}

/// Writes a reply.
#[tactic(auto, unfolding(crate::specs::Texts::answer))]
fn write_answer(line: &mut Spoken, serial: u64, reply: &Option<ArrayVec<u8, LARGEST_REPLY>>)
    requires { line.old.items ≡ [] }
    ensures { line.new.items ≡ text.answer serial (option_map (λ r. r.items) reply.now) }
{
    push(line, b"answer ");
    push_number(line, serial);
    push(line, b" ");
    push_reply(line, reply);
    push(line, b"\n");
}

/// Writes totals.
#[tactic(auto, unfolding(crate::specs::Texts::show))]
fn write_show(line: &mut Spoken, serial: u64, totals: &Totals)
    requires { line.old.items ≡ [] }
    ensures { line.new.items ≡ text.show serial totals.now }
{
    push(line, b"show ");
    push_number(line, serial);
    push(line, b" placed ");
    push_number(line, totals.placed);
    push(line, b" unplaced ");
    push_number(line, totals.unplaced);
    push(line, b" full ");
    push_number(line, totals.full);
    push(line, b"\n");
}

/// Writes a line of control text in the place of what was written before.
pub fn write_saying(line: &mut Spoken, saying: &Saying)
    ensures { line.new.items ≡ text_of saying.now }
{
    line.clear();
    match saying {
        Saying::Refused(number, why) => write_refused(line, *number, *why),
        Saying::Published(serial) => write_published(line, *serial),
        Saying::Spoiled(lines) => write_spoiled(line, *lines),
        Saying::NoMemory => write_memory(line),
        Saying::Answer(serial, reply) => write_answer(line, *serial, reply),
        Saying::Show(serial, totals) => write_show(line, *serial, totals),
    }
}

/// The octets of a feed's mark.
#[tactic(auto, using(crate::proofs::Marks::mark_is))]
fn mark(feeder: u8) -> [u8; 2]
    requires { feeder < 4 }
    ensures { result ≡ text.mark_of feeder }
{
    [b'1' + feeder, b' ']
}

/// A line behind its feed's mark.
pub(crate) fn with_mark(feeder: u8, line: &Spoken) -> Marked
    requires { feeder < 4 }
    ensures { result.items ≡ text.mark_of feeder ++ line.now.items }
{
    let mut marked = Marked::new();
    let mark = mark(feeder);
    let _ = marked.try_extend_from_slice(&mark);
    let _ = marked.try_extend_from_slice(line.as_slice());
    marked
}
