//! A source in memory, which gives its bytes in pieces of stated sizes.
ghost use Rattle.std.specs.Prelude.{◌≡◌, ◌≢◌, ◌≤◌, ◌↔◌, ◌⊎◌, ◌++◌, ◌∷◌, ◌+◌, ◌<◌, Some, None, [], true, false, drop, take, length, min, vec_len, vec_capacity, IfOk, Contains};
ghost use Rattle.outside.specs.Calls.{counted};
ghost use Rattle.outside.specs.Faults.{BothTell, Rose};
ghost use Rattle.outside.specs.Source.{IsRead, IsWithin, shorter};
ghost use Rattle.outside.specs.MemSource.{cut_by, is_failed, next_size, total};

use crate::calls::Calls;
use crate::{Read, Source};
use no_memory::NoMemory;
use std::alloc::Global;
use std::marker::Model;

/// A source in memory, which gives its bytes in pieces of stated sizes.
#[derive(Drop)]
pub struct MemSource {
    bytes: Vec<u8>,
    /// How many octets were given.
    at: usize,
    sizes: Vec<usize>,
    /// How many sizes were used.
    used: usize,
    /// The sizes of the pieces that were given.
    given: Vec<usize>,
    shortest: Option<usize>,
    is_ended: bool,
    calls: Calls,
}

impl Model for MemSource {
    ghost use Rattle.std.specs.Prelude.{◌≡◌, ◌≢◌, ◌≤◌, true, drop, vec_len, vec_capacity};
    ghost use Rattle.outside.specs.MemSource.{SourceInMemory, cut_by, total};

    ghost Value = { SourceInMemory };

    ghost view = { λ s. record {
      left = drop s.at s.bytes.items;
      sizes = drop s.used s.sizes.items;
      pieces = cut_by s.bytes.items s.given.items;
      shortest = s.shortest;
      is_ended = s.is_ended;
      calls = s.calls;
    } };

    ghost invariant = { λ s. (s.at ≤ vec_len s.bytes) × (s.used ≤ vec_len s.sizes)
        × (s.is_ended ≡ true → s.at ≡ vec_len s.bytes) × (s.at ≡ total s.given.items)
        × (vec_len s.given ≤ s.at) × (vec_len s.bytes ≤ vec_capacity s.given) };
}

impl MemSource {
    /// One of these bytes. The pieces have these sizes in turn, but at least one octet and no more than fit and are
    /// left; behind the last size each piece has all that fits. The reads with these numbers, from 0, are to fail.
    ///
    /// # Errors
    ///
    /// `NoMemory`.
    pub fn new(
        alloc: Global,
        bytes: Vec<u8>,
        sizes: Vec<usize>,
        fails: Vec<u64>,
    ) -> Result<MemSource, NoMemory>
        ensures { IfOk result (λ s. s ≡ record {
          left = bytes.items;
          sizes = sizes.items;
          pieces = [];
          shortest = None;
          is_ended = false;
          calls = record { made = 0; fails = fails.items; faults = 0 };
        }) }
    {
        let given = Vec::with_capacity(alloc, bytes.len())?;
        Ok(MemSource {
            bytes,
            at: 0,
            sizes,
            used: 0,
            given,
            shortest: None,
            is_ended: false,
            calls: Calls::new(fails),
        })
    }

    /// How many pieces it gave.
    pub fn pieces(&self) -> usize
        ensures { result ≡ length self.now.pieces }
    {
        self.given.as_slice().len()
    }

    /// The shortest buffer that it was handed.
    pub fn shortest(&self) -> Option<usize>
        ensures { result ≡ self.now.shortest }
    {
        self.shortest
    }

    /// How many reads failed. The number stands still at the end of its type.
    pub fn faults(&self) -> u64
        ensures { result ≡ self.now.calls.faults }
    {
        self.calls.faults()
    }
}

/// The shortest of some buffers and one more.
pub(crate) fn shorter(shortest: Option<usize>, size: usize) -> Option<usize>
    ensures { result ≡ shorter shortest size }
{
    match shortest {
        Some(shortest) => Some(shortest.min(size)),
        None => Some(size),
    }
}

/// The size of the next piece.
fn next_size(sizes: &[usize], room: usize, left: usize) -> usize
    ensures size { result ≡ next_size sizes.now room left }
    ensures some { 1 ≤ room → 1 ≤ left → 1 ≤ result }
    ensures within { (result ≤ room) × (result ≤ left) }
{
    let most = room.min(left);
    match sizes {
        [size, ..] => (*size).max(1).min(most),
        [] => most,
    }
}

/// Copies the first octets of what is left to the front of a buffer.
fn give(buffer: &mut [u8], left: &[u8], size: usize)
    requires { (size ≤ length left.now) × (size ≤ length buffer.old) }
    ensures whole { left.now ≡ take size buffer.new ++ drop size left.now }
    ensures same { take size buffer.new ≡ take size left.now }
{
    buffer[..size].copy_from_slice(&left[..size]);
}

/// Notes the size of a piece behind so many octets.
fn note(given: &mut Vec<usize>, bytes: &[u8], at: usize, size: usize)
    requires at { at ≡ total given.old.items }
    requires room { vec_len given.old < vec_capacity given.old }
    ensures pieces { cut_by bytes.now given.new.items
        ≡ cut_by bytes.now given.old.items ++ take size (drop at bytes.now) ∷ [] }
    ensures total { total given.new.items ≡ at + size }
    ensures len { vec_len given.new ≡ vec_len given.old + 1 }
    ensures capacity { vec_capacity given.old ≤ vec_capacity given.new }
{
    let _ = given.push(size);
}

/// How many sizes are used after one piece more.
fn use_one(sizes: &[usize], used: usize) -> usize
    requires { used ≤ length sizes.now }
    ensures rest { drop result sizes.now ≡ drop 1 (drop used sizes.now) }
    ensures within { result ≤ length sizes.now }
{
    if used < sizes.len() { used + 1 } else { used }
}

impl Source for MemSource {
    ghost use Rattle.outside.specs.MemSource.{FailsNext, IsNextPiece, fed};

    ghost told = { λ s. record { past = Some (fed s); faults = s.calls.faults } };

    fn read(&mut self, buffer: &mut [u8]) -> Read
        requires { 1 ≤ length buffer.old }
        ensures within { IsWithin result (length buffer.old) }
        ensures read { BothTell (Some (fed self.old))
            (Some (fed self.new)) (IsRead (length buffer.old) result buffer.new) }
        ensures later { self.old.calls.faults ≤ self.new.calls.faults }
        ensures cause { result ≡ Read.Failed → Rose self.old.calls.faults self.new.calls.faults }
        ensures stays { result ≢ Read.Failed → self.new.calls.faults ≡ self.old.calls.faults }
        // It fails only where it is to, and ends only where nothing is left.
        ensures failed { (result ≡ Read.Failed) ↔ FailsNext self.old }
        ensures end { (result ≡ Read.End)
            ↔ (self.old.is_ended ≡ true) ⊎ ((self.old.left ≡ []) × ¬ FailsNext self.old) }
        ensures piece { IsNextPiece result (length buffer.old) self.old self.new }
        ensures counted { self.new.calls ≡ counted self.old.calls (is_failed result) }
    {
        self.shortest = shorter(self.shortest, buffer.len());
        if self.is_ended {
            self.calls.count_done();
            return Read::End;
        }
        if self.calls.is_to_fail() {
            self.calls.count_failed();
            return Read::Failed;
        }
        self.calls.count_done();
        let left = &self.bytes[self.at..];
        if left.is_empty() {
            self.is_ended = true;
            return Read::End;
        }
        let size = next_size(&self.sizes[self.used..], buffer.len(), left.len());
        give(buffer, left, size);
        note(&mut self.given, self.bytes.as_slice(), self.at, size);
        self.at += size;
        self.used = use_one(self.sizes.as_slice(), self.used);
        Read::Got(size)
    }
}
