//! Which calls of a device fail.
use no_memory::NoMemory;
use std::alloc::Global;

/// So many calls fail, from one on.
#[derive(Clone, Copy, PartialEq, Eq, Debug)]
pub struct Fails {
    pub first: u64,
    pub count: u64,
}

/// No call fails.
pub const NEVER: Fails = Fails { first: 0, count: 0 };

impl Fails {
    /// The numbers of these calls.
    pub fn numbers(self, alloc: Global) -> Result<Vec<u64>, NoMemory> {
        let mut numbers = Vec::new(alloc);
        for number in self.first..self.first.saturating_add(self.count) {
            numbers.push(number)?;
        }
        Ok(numbers)
    }
}
