//! Whether threads can be had.
use crate::fork::STACK;
use std::alloc::Global;
use std::sync::Arc;
use std::sync::atomic::{AtomicBool, Ordering};
use std::thread;
use std::thread::{Builder, JoinHandle, Threads};

/// Yields until it is told to end.
fn wait_for(ends: &AtomicBool) {
    for _ in 0..u64::MAX {
        if ends.load(Ordering::SeqCst) {
            return;
        }
        thread::yield_now();
    }
}

/// A thread that runs until it is told to end, if one can be had.
fn fork_one<R: Threads>(rt: &R, ends: &Arc<AtomicBool>) -> Option<JoinHandle<()>> {
    let ends = Arc::try_clone(ends).ok()?;
    Builder::new()
        .stack_size(STACK)
        .spawn(rt, move || wait_for(&ends))
        .ok()
}

/// Makes so many threads, and stops at the first that can't be had.
fn fork_all<R: Threads>(
    rt: &R,
    ends: &Arc<AtomicBool>,
    count: usize,
    made: &mut Vec<JoinHandle<()>>,
) -> bool {
    for _ in 0..count {
        match fork_one(rt, ends) {
            None => return false,
            Some(thread) => {
                if made.push(thread).is_err() {
                    return false;
                }
            }
        }
    }
    true
}

/// Ends all of them.
fn end_all<R: Threads>(rt: &R, ends: &AtomicBool, made: Vec<JoinHandle<()>>) {
    ends.store(true, Ordering::SeqCst);
    for thread in made {
        thread.join(rt);
    }
}

/// Whether so many threads can be had at once. It makes them and ends them again, so that others may take them behind that.
pub(crate) fn can_fork<R: Threads>(rt: &R, alloc: Global, count: usize) -> bool {
    let Ok(ends) = Arc::new(alloc, AtomicBool::new(false)) else {
        return false;
    };
    let mut made = Vec::new(alloc);
    let can = fork_all(rt, &ends, count, &mut made);
    end_all(rt, &ends, made);
    can
}
