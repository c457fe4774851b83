//! `glb large`: a large world, its batches, and what they came to.
ghost use Rattle.std.specs.Prelude.{◌≡◌, ◌≢◌, ◌≤◌, ◌⊎◌};
ghost use Rattle.outside.specs.Faults.{Rose};
ghost use Rattle.big_world.specs.declared.TheConstants.{LARGEST_WORLD};
ghost use Rattle.big_run.specs.Summary.{lines_of};
ghost use Rattle.glb.specs.Large.{IsLargeDue};
ghost use Rattle.glb.specs.Outcome.{RunsBy, Speaks};

use crate::status::Status;
use big_run::{Summary, put_lines, run_world};
use map_cell::{EmptyHistory, Naming};
use no_memory::NoMemory;
use outside::{Put, Sink};
use std::alloc::Global;
use std::marker::Brand;
use std::sync::Wait;

/// Puts a summary, line by line.
fn say_summary<K: Sink>(summary: &Summary, out: &mut K) -> Status
    ensures run { Speaks (λ due. due ≡ record { status = Status.Ok; pieces = lines_of summary.now })
        (K.told out.old).past (K.told out.new).past result }
    ensures later { (K.told out.old).faults ≤ (K.told out.new).faults }
    ensures cause { result ≡ Status.SinkFault
        → Rose (K.told out.old).faults (K.told out.new).faults }
    ensures stays { result ≢ Status.SinkFault → (K.told out.new).faults ≡ (K.told out.old).faults }
    ensures ends { (result ≡ Status.Ok) ⊎ (result ≡ Status.SinkFault) }
{
    match put_lines(summary, out) {
        Put::Done => Status::Ok,
        Put::Failed => Status::SinkFault,
    }
}

/// Runs the world of so many groups under a name of its own, and puts its summary.
fn run_named<J: Naming, R: Wait, K: Sink>(
    rt: &R,
    alloc: Global,
    history: EmptyHistory,
    groups: u32,
    out: &mut K,
) -> Status
    requires book { history ≡ J.book }
    requires groups { (1 ≤ groups) × (groups ≤ LARGEST_WORLD) }
    ensures run { RunsBy (IsLargeDue groups) (K.told out.old).past (K.told out.new).past result }
    ensures later { (K.told out.old).faults ≤ (K.told out.new).faults }
    ensures cause { result ≡ Status.SinkFault
        → Rose (K.told out.old).faults (K.told out.new).faults }
    ensures stays { result ≢ Status.SinkFault → (K.told out.new).faults ≡ (K.told out.old).faults }
    ensures ends { (result ≡ Status.Ok) ⊎ (result ≡ Status.SinkFault) ⊎ (result ≡ Status.NoMemory) }
{
    match run_world::<J, R>(rt, alloc, history, groups) {
        Ok(summary) => say_summary(&summary, out),
        Err(NoMemory) => Status::NoMemory,
    }
}

/// Runs the world of so many groups, and puts its summary, one put for each line.
pub fn large<R: Wait, K: Sink>(rt: &R, alloc: Global, groups: u32, out: &mut K) -> Status
    requires { (1 ≤ groups) × (groups ≤ LARGEST_WORLD) }
    ensures run { RunsBy (IsLargeDue groups) (K.told out.old).past (K.told out.new).past result }
    ensures later { (K.told out.old).faults ≤ (K.told out.new).faults }
    ensures cause { result ≡ Status.SinkFault
        → Rose (K.told out.old).faults (K.told out.new).faults }
    ensures stays { result ≢ Status.SinkFault → (K.told out.new).faults ≡ (K.told out.old).faults }
    ensures ends { (result ≡ Status.Ok) ⊎ (result ≡ Status.SinkFault) ⊎ (result ≡ Status.NoMemory) }
{
    run_named::<Brand, R, K>(rt, alloc, EmptyHistory::new(), groups, out)
}
