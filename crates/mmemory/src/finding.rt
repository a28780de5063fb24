// SPDX-License-Identifier: Apache-2.0
// Where the rows of a tree are.
ghost use Rattle.std.specs.Prelude.{◌≡◌, ◌⊎◌, ◌<◌, ◌≤◌, false, [], ◌∷◌, ◌++◌, length, take, drop, IsTrue, IfSome, IfNone};
ghost use Rattle.std.specs.List.{AllByRecursion};
ghost use Rattle.mmemory.specs.Lists.{joined};
ghost use Rattle.mmemory.specs.Nest.{before, after, rows_at, ComesNext};
ghost use Rattle.mmemory.specs.Plain.{tree_nest, tree_rows};
ghost use Rattle.mmemory.specs.Probe.{passes, Falls, Splits};
ghost use Rattle.mmemory.specs.Sought.{IsSought};

use crate::guess::Guess;
use crate::packed::Packed;
use crate::place::Place;
use crate::probe::{Probe, chunk_edge, row_edge};
use crate::tree::Tree;

impl Tree {
    // Where the rows cease to pass. It looks near a place first.
    pub(crate) fn find(&self, probe: Probe<'_>, near: Place) -> Place
        requires { Falls (passes probe) (tree_rows self.now) }
        ensures splits { Splits (passes probe.entry) (before (tree_nest self.now) result) (after (tree_nest self.now) result) }
        ensures row { result.row ≤ length (rows_at (tree_nest self.now) result) }
        ensures chunk { result.chunk < length (tree_nest self.now) ⊎ (tree_nest self.now ≡ []) }
    {
        let guess = probe.guess_chunk(self.chunks.as_slice(), near);
        match self.find_in(probe, guess.last_below(), near) {
            Some(place) => place,
            None => self.find_among(probe, guess, near),
        }
    }

    // Whether the rows of the chunks from one on fail, by the first of them.
    fn fails_from(&self, probe: Probe<'_>, chunk: usize) -> bool
        requires { Falls (passes probe) (tree_rows self.now) }
        ensures { IsTrue result → AllByRecursion (λ row. passes probe.entry row ≡ false) (joined (drop chunk (tree_nest self.now))) }
    {
        match self.chunks.get(chunk) {
            Some(next) => !probe.passes_first(next),
            None => true,
        }
    }

    // The same if a chunk has a row that passes and one that fails, or none follows that passes.
    fn find_in(&self, probe: Probe<'_>, chunk: usize, near: Place) -> Option<Place>
        requires { Falls (passes probe) (tree_rows self.now) }
        ensures splits { IfSome result (λ p. Splits (passes probe.entry) (before (tree_nest self.now) p) (after (tree_nest self.now) p)) }
        ensures row { IfSome result (λ p. p.row ≤ length (rows_at (tree_nest self.now) p)) }
        ensures chunk { IfSome result (λ p. p.chunk < length (tree_nest self.now)) }
    {
        let Some(found) = self.chunks.get(chunk) else {
            return None;
        };
        let row = row_edge(found.rows.as_slice(), &found.marks, probe, near);
        if row == 0 && chunk > 0 {
            return None;
        }
        if row == found.rows.len() && !self.fails_from(probe, chunk + 1) {
            return None;
        }
        Some(Place { chunk, row })
    }

    // The same by tests of the first rows of chunks.
    fn find_among(&self, probe: Probe<'_>, guess: Guess, near: Place) -> Place
        requires { Falls (passes probe) (tree_rows self.now) }
        ensures splits { Splits (passes probe.entry) (before (tree_nest self.now) result) (after (tree_nest self.now) result) }
        ensures row { result.row ≤ length (rows_at (tree_nest self.now) result) }
        ensures chunk { result.chunk < length (tree_nest self.now) ⊎ (tree_nest self.now ≡ []) }
    {
        let past = chunk_edge(self.chunks.as_slice(), probe, guess);
        let chunk = past.max(1) - 1;
        let Some(found) = self.chunks.get(chunk) else {
            return Place { chunk, row: 0 };
        };
        let row = row_edge(found.rows.as_slice(), &found.marks, probe, near);
        Place { chunk, row }
    }

    // The rows of the chunk of a place.
    pub(crate) fn rows_at(&self, place: Place) -> &[Packed]
        ensures rows { result.now ≡ rows_at (tree_nest self.now) place }
        ensures small { length result.now ≤ 128 }
    {
        match self.chunks.get(place.chunk) {
            Some(chunk) => chunk.rows.as_slice(),
            None => &[],
        }
    }

    // The first row from a place on, and its place.
    pub(crate) fn next_row(&self, place: Place) -> Option<(Place, &Packed)>
        ensures none { IfNone result (after (tree_nest self.now) place ≡ []) }
        ensures some { let n = tree_nest self.now in IfSome result (λ found. ComesNext n found.0 (before n place) (after n place) found.1.now) }
    {
        if let Some(row) = self.rows_at(place).get(place.row) {
            return Some((place, row));
        }
        if place.chunk >= self.chunks.len() {
            return None;
        }
        let next = Place {
            chunk: place.chunk + 1,
            row: 0,
        };
        match self.rows_at(next).get(0) {
            Some(row) => Some((next, row)),
            None => None,
        }
    }

    // The last row of its chunk before a place.
    fn row_before(&self, place: Place) -> Option<(Place, &Packed)>
        ensures none { IfNone result (take place.row (rows_at (tree_nest self.now) place) ≡ []) }
        ensures some { IfSome result (λ found. before (tree_nest self.now) place ≡ before (tree_nest self.now) found.0 ++ found.1.now ∷ []) }
    {
        let rows = self.rows_at(place);
        let at = place.row.min(rows.len());
        if at == 0 {
            return None;
        }
        let last = Place {
            chunk: place.chunk,
            row: at - 1,
        };
        Some((last, &rows[at - 1]))
    }

    // The last row before a place, and its place.
    pub(crate) fn last_row(&self, place: Place) -> Option<(Place, &Packed)>
        ensures none { IfNone result (before (tree_nest self.now) place ≡ []) }
        ensures some { IfSome result (λ found. before (tree_nest self.now) place ≡ before (tree_nest self.now) found.0 ++ found.1.now ∷ []) }
    {
        if let Some(found) = self.row_before(place) {
            return Some(found);
        }
        let at = place.chunk.min(self.chunks.len());
        if at == 0 {
            return None;
        }
        let end = Place {
            chunk: at - 1,
            row: self.chunks[at - 1].rows.len(),
        };
        self.row_before(end)
    }

    // Where what is sought is or would be, and whether it is there.
    pub(crate) fn seek(&self, probe: Probe<'_>, near: Place) -> (Place, bool)
        requires { Falls (passes probe) (tree_rows self.now) }
        ensures { IsSought self.now probe.entry result.0 result.1 }
    {
        let place = self.find(probe, near);
        match self.next_row(place) {
            Some((at, row)) if probe.meets(row) => (at, true),
            _ => (place, false),
        }
    }
}
