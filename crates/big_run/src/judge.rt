//! A count of the maps that are good.
ghost use Rattle.std.specs.Prelude.{◌≡◌, ◌<◌, ◌+◌, ◌-◌, ◌^◌, IfOk, length};
ghost use Rattle.map_model.specs.Market.{Market};

use map_cell::Naming;
use map_model::Instance;
use mapper::Mapper;
use no_memory::NoMemory;
use stable_check::{CheckRoom, Verdict, check};
use std::alloc::Global;

/// Checks maps of instances of one size, and counts those that are good.
#[derive(Drop)]
pub(crate) struct Judge {
    room: CheckRoom,
    good: u64,
}

impl Judge {
    /// One that has checked nothing.
    pub fn new(alloc: Global, instance: &Instance) -> Result<Judge, NoMemory>
        ensures room { IfOk result (λ j. j.room ≡ record {
          groups = length instance.now.groups;
          nodes = length instance.now.nodes;
        }) }
        ensures good { IfOk result (λ j. j.good ≡ 0) }
    {
        Ok(Judge {
            room: CheckRoom::new(alloc, instance)?,
            good: 0,
        })
    }

    /// Checks the newest map, and counts it where it is good.
    pub fn check_newest<J: Naming>(&mut self, mapper: &Mapper<J>)
        requires room { self.old.room ≡ record {
          groups = length mapper.now.newest.market.groups;
          nodes = length mapper.now.newest.market.nodes;
        } }
        requires few { self.old.good < 2 ^ 64 - 1 }
        ensures room { self.new.room ≡ self.old.room }
        ensures good { self.new.good ≡ self.old.good + 1 }
    {
        // tells the prover what the type keeps
        let _ = mapper.newest();
        let (instance, map) = mapper.newest_map();
        if let Verdict::Good = check(instance, map, &mut self.room) {
            self.good += 1;
        }
    }

    /// How many maps were good.
    pub fn good(&self) -> u64
        ensures { result ≡ self.now.good }
    {
        self.good
    }
}
