// SPDX-License-Identifier: Apache-2.0
// Where searches of trees ended. The next one begins there, and nothing that is proved rests on it.
use crate::place::Place;

/// A place for the trees with even numbers, such as a table, and one for the others, such as its index.
#[derive(Clone, Copy)]
pub(crate) struct Near {
    even: Place,
    odd: Place,
}

impl Near {
    pub(crate) fn new() -> Near {
        let first = Place { chunk: 0, row: 0 };
        Near {
            even: first,
            odd: first,
        }
    }

    // The place for a tree.
    pub(crate) fn of(&self, tree: usize) -> Place {
        if tree % 2 == 0 { self.even } else { self.odd }
    }

    pub(crate) fn keep(&mut self, tree: usize, place: Place) {
        if tree % 2 == 0 {
            self.even = place;
        } else {
            self.odd = place;
        }
    }
}
