//! Two sides at once, of which the one that is to have a thread of its own is told where there is none.
ghost use Rattle.std.specs.Prelude.{◌≡◌, Bool};

use core::thread::Stack;
use std::snapshot::Snapshot;
use std::sync::Wait;
use std::sync::atomic::{AtomicBool, Ordering};
use std::thread;
use std::thread::{Promise, Threads};

/// How large the stack of each thread is, in octets, whatever the limits are under which the program is started.
pub(crate) const STACK: usize = 1 << 20;

/// When that which gets no thread runs in this one.
#[derive(Clone, Copy)]
enum Order {
    First,
    Last,
}

/// What is done once, with a thread of its own or alone.
trait Job {
    type Output;

    ghost can_run: { Self → Type 0 };

    ghost gives: { Self → Self.Output → Type 0 };

    fn run(self, alone: bool) -> Self::Output
        requires { can_run self }
        ensures { gives self result };
}

/// Promises what a task gives.
#[derive(Drop)]
struct Gives<S>(Snapshot<S>);

impl<S: Job<Output = A>, A> Promise<A> for Gives<S> {
    ghost kept_by = { λ p r. S.gives p.0.value r };
}

/// A closure that is lent, called with a thread of its own or alone, and given back.
#[derive(Drop)]
struct There<'a, F> {
    f: &'a mut F,
}

impl<'a, F: FnMut(bool)> Job for There<'a, F> {
    type Output = &'a mut F;

    ghost can_run = { λ t. (alone : Bool) → F.pre t.f.now alone };

    ghost gives = { λ t r. (alone : Bool)
        × (r.ghost_name ≡ t.f.ghost_name) × F.step t.f.now alone tt r.now };

    fn run(self, alone: bool) -> &'a mut F {
        let There { f } = self;
        f(alone);
        f
    }
}

/// A closure that is lent and runs in this thread.
#[derive(Drop)]
struct Here<'a, G> {
    g: &'a mut G,
}

impl<'a, G: FnMut()> Job for Here<'a, G> {
    type Output = &'a mut G;

    ghost can_run = { λ t. G.pre t.g.now };

    ghost gives = { λ t r. (r.ghost_name ≡ t.g.ghost_name) × G.step t.g.now tt r.now };

    fn run(self, _alone: bool) -> &'a mut G {
        let Here { g } = self;
        g();
        g
    }
}

/// Runs the first in a new thread, and the second in this one. Where no thread can be made, the first runs alone in this one,
/// ahead of the second or behind it.
fn run_both<
    R: Threads + Wait,
    S: Job<Output = A> + Send + Drop,
    T: Job<Output = B> + Drop,
    A: Send + Drop,
    B: Drop,
>(rt: &R, s: S, t: T, order: Order) -> (A, B)
    requires { S.can_run s × T.can_run t }
    ensures { S.gives s result.0 × T.gives t result.1 }
{
    let is_alone = AtomicBool::new(false);
    let told = &is_alone;
    thread::scope(
        thread::scope_env(),
        rt,
        move |scope| -> (A, B)
            requires { S.can_run s × T.can_run t }
            ensures { S.gives s result.0 × T.gives t result.1 }
        {
            let gives = Gives(Snapshot::of(&s));
            let there = Stack::new().stack_size(STACK).spawn_scoped_with(
                scope,
                gives,
                move || -> A
                    requires { S.can_run s }
                    ensures { S.gives s result }
                { s.run(told.load(Ordering::SeqCst)) },
            );
            match there {
                Ok(there) => {
                    let b = t.run(false);
                    (there.join(rt), b)
                }
                Err(here) => {
                    told.store(true, Ordering::SeqCst);
                    match order {
                        Order::First => {
                            let a = (here.value)();
                            (a, t.run(false))
                        }
                        Order::Last => {
                            let b = t.run(false);
                            ((here.value)(), b)
                        }
                    }
                }
            }
        },
    )
}

/// Does nothing. It ties what is given back to whom it was lent by.
fn take_back<T>(x: &mut T)
    ensures { x.new ≡ x.old }
{}

/// Calls f in a new thread with false, and g in this one. Where no thread can be made, f is called with true ahead of g.
pub(crate) fn join_told<R: Threads + Wait, F: FnMut(bool) + Send, G: FnMut()>(
    rt: &R,
    f: &mut F,
    g: &mut G,
)
    requires first { (alone : Bool) → F.pre f.old alone }
    requires second { G.pre g.old }
    ensures first { (alone : Bool) × F.step f.old alone tt f.new }
    ensures second { G.step g.old tt g.new }
{
    let (f, g) = run_both(rt, There { f }, Here { g }, Order::First);
    take_back(f);
    take_back(g);
}

/// Calls f in a new thread, and g in this one. Where no thread can be made, f is called behind g.
pub(crate) fn join_both<R: Threads + Wait, F: FnMut() + Send, G: FnMut()>(
    rt: &R,
    f: &mut F,
    g: &mut G,
)
    requires { F.pre f.old × G.pre g.old }
    ensures { F.step f.old tt f.new × G.step g.old tt g.new }
{
    let (f, g) = run_both(rt, Here { g: f }, Here { g }, Order::Last);
    take_back(f);
    take_back(g);
}
