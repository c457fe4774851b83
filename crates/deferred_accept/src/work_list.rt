//! A list of groups that holds each at most once.

ghost use Rattle.std.specs.Prelude.{◌≡◌, ℕ, ◌<◌, true, false, All, IfOk, MatchOption, OnOk, length, slice_set};
ghost use Rattle.deferred_accept.specs.Work.{is_on, times};

use map_model::{GroupId, Instance};
use no_memory::NoMemory;
use std::alloc::Global;
use std::collections::VecDeque;
use std::marker::Model;

/// Groups that may still have to offer. Contracts see for each group whether it is on the list.
#[derive(Debug, Drop)]
pub struct WorkList {
    // The first one is taken off first: while a group waits, units that it loses are added up, and
    // are then offered together. By the last one each few units would go on their way at once.
    groups: VecDeque<GroupId>,
    is_on: Vec<bool>,
}

impl Model for WorkList {
    ghost use Rattle.std.specs.Prelude.{Bool, List};
    ghost use Rattle.deferred_accept.specs.Work.{HoldsEachOnce};

    ghost Value = { List Bool };

    ghost view = { λ w. w.is_on.items };

    ghost invariant = { λ w. HoldsEachOnce w.groups.items w.is_on.items };
}

fn first_groups(alloc: Global, count: u32) -> Result<VecDeque<GroupId>, NoMemory>
    ensures there { IfOk result (λ groups. All (λ x. x.0 < count) groups.items) }
    ensures once { IfOk result (λ groups. (h : ℕ) → h < count → times groups.items h ≡ 1) }
{
    let mut groups = VecDeque::new(alloc);
    for g in 0..count {
        groups.push_back(GroupId(g))?;
    }
    Ok(groups)
}

impl WorkList {
    /// All groups of an instance.
    pub fn all(alloc: Global, instance: &Instance) -> Result<WorkList, NoMemory>
        ensures count { IfOk result (λ work. length work ≡ length instance.now.groups) }
        ensures all { IfOk result (λ work. (h : ℕ) → h < length instance.now.groups → is_on work h
            ≡ true) }
    {
        let count = instance.groups();
        Ok(WorkList {
            groups: first_groups(alloc, count)?,
            is_on: vec![in alloc; true; count as usize]?,
        })
    }

    /// Puts a group on the list, unless it is there.
    pub fn add(&mut self, group: GroupId) -> Result<(), NoMemory>
        requires { group.0 < length self.old }
        ensures { OnOk result (self.new ≡ slice_set self.old group.0 true) }
    {
        let g = group.0 as usize;
        if self.is_on[g] {
            return Ok(());
        }
        self.groups.push_back(group)?;
        self.is_on[g] = true;
        Ok(())
    }

    /// Puts a group on the list in front of the others, unless it is there.
    pub fn add_first(&mut self, group: GroupId) -> Result<(), NoMemory>
        requires { group.0 < length self.old }
        ensures { OnOk result (self.new ≡ slice_set self.old group.0 true) }
    {
        let g = group.0 as usize;
        if self.is_on[g] {
            return Ok(());
        }
        self.groups.push_front(group)?;
        self.is_on[g] = true;
        Ok(())
    }

    /// Takes a group off the list; none exactly where no group is there.
    pub fn pop(&mut self) -> Option<GroupId>
        ensures { MatchOption result
            ((h : ℕ) → h < length self.old → is_on self.old h ≡ false)
            (λ g. (g.0 < length self.old) × (is_on self.old g.0 ≡ true)
            × (self.new ≡ slice_set self.old g.0 false)) }
    {
        let group = self.groups.pop_front()?;
        self.is_on[group.0 as usize] = false;
        Some(group)
    }
}
