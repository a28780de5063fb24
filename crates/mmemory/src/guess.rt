// SPDX-License-Identifier: Apache-2.0
// What a search tests next.
ghost use Rattle.std.specs.Prelude.{◌<◌, ◌≤◌};

/// How many parts are believed to be below what is sought, and how many not above it.
#[derive(Clone, Copy)]
pub(crate) struct Guess {
    pub below: usize,
    pub up_to: usize,
}

// How many parts pass a test, which those after them fail. It looks at a place first.
fn edge<T, F: FnMut(&T) -> bool>(parts: &[T], near: usize, mut test: F) -> usize
    requires { F.IsAlwaysCallable test }
{
    let from = near.min(parts.len());
    let passes = from < parts.len() && test(&parts[from]);
    if passes && (from + 1 == parts.len() || !test(&parts[from + 1])) {
        return from + 1;
    }
    if !passes && (from == 0 || test(&parts[from - 1])) {
        return from;
    }
    parts.partition_point(test)
}

impl Guess {
    // That all parts are below.
    pub(crate) fn all(count: usize) -> Guess {
        Guess {
            below: count,
            up_to: count,
        }
    }

    // By two tests of each part: whether it is below, and whether it is not above. The first is near a place.
    pub(crate) fn of<T, F: FnMut(&T) -> bool, G: FnMut(&T) -> bool>(
        parts: &[T],
        near: usize,
        is_below: F,
        is_up_to: G,
    ) -> Guess
        requires below { F.IsAlwaysCallable is_below }
        requires up_to { G.IsAlwaysCallable is_up_to }
    {
        let below = edge(parts, near, is_below);
        Guess {
            below,
            up_to: edge(parts, below, is_up_to),
        }
    }

    // The last part that is below, or the first one.
    pub(crate) fn last_below(self) -> usize {
        self.below.max(1) - 1
    }

    // The part to test between two places: among those that are believed to be alike, then at
    // the ends of these, and if the guess was wrong, the one in the middle.
    pub(crate) fn next(self, low: usize, high: usize) -> usize
        requires { low < high }
        ensures low { low ≤ result }
        ensures high { result < high }
    {
        let from = self.below.max(low);
        let to = self.up_to.min(high);
        if from < to {
            from + (to - from) / 2
        } else if from > to {
            low + (high - low) / 2
        } else if low < from {
            from - 1
        } else {
            from
        }
    }
}
