//! The run of zeros that `::` stands for.
ghost use Rattle.std.specs.Prelude.{◌≡◌, ℕ, ◌<◌, ◌≤◌, ◌==◌, ◌+◌, length, IfSome, MatchOption};
ghost use Rattle.std.specs.List.{prefix_len};
ghost use Rattle.addr_text.specs.Written.{IsLongest, run_at};

use text_parts::after;

/// How many zeros stand at the front.
fn zeros(groups: &[u16]) -> usize
    ensures count { result ≡ prefix_len (λ g. g == 0) groups.now }
    ensures fits { result ≤ length groups.now }
{
    let mut count = 0;
    for group in groups {
        if *group != 0 {
            return count;
        }
        count += 1;
    }
    count
}

fn run_at(groups: &[u16], i: usize) -> usize
    requires { i ≤ length groups.now }
    ensures run { result ≡ run_at groups.now i }
    ensures fits { i + result ≤ length groups.now }
{
    zeros(after(groups, i))
}

/// Where the longest run of zeros begins, the first of equals.
fn longest(groups: &[u16]) -> usize
    requires { 0 < length groups.now }
    ensures { IsLongest groups.now result }
{
    let mut best = 0;
    for i in 1..groups.len() {
        if run_at(groups, i) > run_at(groups, best) {
            best = i;
        }
    }
    best
}

/// Where the run begins that `::` stands for, and how many groups it has; None where no run has two.
pub fn shortened(groups: &[u16]) -> Option<(usize, usize)>
    requires { 0 < length groups.now }
    ensures fits { IfSome result (λ r. r.0 + r.1 ≤ length groups.now) }
    ensures run { MatchOption result ((j : ℕ) → j < length groups.now → run_at groups.now j
        < 2) (λ r. IsLongest groups.now r.0 × (r.1 ≡ run_at groups.now r.0) × (2 ≤ r.1)) }
{
    let best = longest(groups);
    let len = run_at(groups, best);
    if len < 2 { None } else { Some((best, len)) }
}
