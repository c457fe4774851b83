//! The lines of a summary, each put on an output.
ghost use Rattle.std.specs.Prelude.{◌≡◌, ◌≢◌, ◌≤◌};
ghost use Rattle.outside.specs.Faults.{BothTell, Rose};
ghost use Rattle.big_run.specs.Putting.{ArePut};
ghost use Rattle.big_run.specs.Summary.{lines_of};

use crate::summary::{LINES, Summary};
use outside::{Put, Sink};

/// Puts the lines of a summary, one by one, up to the first that fails.
pub fn put_lines<K: Sink>(summary: &Summary, out: &mut K) -> Put
    ensures puts { BothTell
        (K.told out.old).past (K.told out.new).past (ArePut result (lines_of summary.now)) }
    ensures later { (K.told out.old).faults ≤ (K.told out.new).faults }
    ensures cause { result ≡ Put.Failed → Rose (K.told out.old).faults (K.told out.new).faults }
    ensures stays { result ≢ Put.Failed → (K.told out.new).faults ≡ (K.told out.old).faults }
{
    for number in 0..LINES {
        match out.put(summary.line(number).as_slice()) {
            Put::Done => {}
            Put::Failed => return Put::Failed,
        }
    }
    Put::Done
}
