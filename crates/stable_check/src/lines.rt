//! The form of a map's lines.

ghost use Rattle.std.specs.Prelude.{◌≡◌, ◌<◌, length, MatchOption};
ghost use Rattle.map_model.specs.Allocation.{AreLines, is_before, is_line};
ghost use Rattle.stable_check.specs.Faults.{IsFirstBadLine};

use map_model::{Instance, MapLine};

/// Whether a line is before another, by group and then by place.
fn is_before_line(a: MapLine, b: MapLine) -> bool
    ensures { result ≡ is_before a b }
{
    a.group.0 < b.group.0 || (a.group.0 == b.group.0 && a.place < b.place)
}

/// Whether the line of that number is of the instance, has some units, and stands above the one before it.
fn is_line_at(instance: &Instance, lines: &[MapLine], i: usize) -> bool
    requires { i < length lines.now }
    ensures { result ≡ is_line instance.now lines.now i }
{
    let line = lines[i];
    line.group.0 < instance.groups()
        && line.place < instance.list_len(line.group)
        && line.amount > 0
        && (i == 0 || is_before_line(lines[i - 1], line))
}

/// The first line that is not in the form of a map.
pub fn first_bad_line(instance: &Instance, lines: &[MapLine]) -> Option<usize>
    ensures { MatchOption result (AreLines instance.now lines.now)
        (IsFirstBadLine instance.now lines.now) }
{
    for i in 0..lines.len() {
        if !is_line_at(instance, lines, i) {
            return Some(i);
        }
    }
    None
}
