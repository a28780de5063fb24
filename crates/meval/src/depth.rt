// SPDX-License-Identifier: Apache-2.0
// How deep a text stands.
ghost use Rattle.std.specs.Prelude.{◌≡◌, ◌↔◌, IsTrue, IsSome, IfSome};
ghost use Rattle.mmeaning.specs.Expression.{is_indirection_free, indirected};
ghost use Rattle.meval.specs.Evaluates.{depth_of};

use mspec::limits::{MAX_INDIRECTIONS, MAX_LEVELS};

/// How deep a text stands: the levels that are open, of which some are indirections under evaluation; and in what kind of level.
#[derive(Clone, Copy, PartialEq, Eq)]
pub struct Depth {
    pub levels: u32,
    pub indirections: u32,
    /// Whether a value is wanted of its level, as one is of a function's.
    pub wants_value: bool,
}

impl Depth {
    /// How deep the text of an indirection that is written here stands; none if 256 levels are open, or if 32 of them are indirections
    /// under evaluation.
    pub fn indirected(self) -> Option<Depth>
        ensures free { IsSome result ↔ IsTrue (is_indirection_free (depth_of self)) }
        ensures deeper { IfSome result (λ deeper. depth_of deeper ≡ indirected (depth_of self)) }
    {
        if self.levels >= MAX_LEVELS || self.indirections >= MAX_INDIRECTIONS {
            return None;
        }
        Some(Depth {
            levels: self.levels + 1,
            indirections: self.indirections + 1,
            wants_value: self.wants_value,
        })
    }
}
