// SPDX-License-Identifier: Apache-2.0
// Where lines from outside stand.
ghost use Rattle.std.specs.Prelude.{◌≡◌, IfOk};
ghost use Rattle.mmeaning.specs.LineMeaning as meaning;
ghost use Rattle.mexec.specs.Frames.{position_of};

use crate::frames::{Level, Position};
use meval::Depth;
use std::alloc::{AllocError, Global};
use std::marker::Model;
use std::rc::Rc;

// Where each line from outside stands: at the only level that is open, which has no lines. It is created once, and lines share it.
pub(crate) struct TopLevel {
    position: Rc<Position>,
}

// Written out, so that dropping it is one call, which is proved once.
impl Drop for TopLevel {
    fn drop(self) {
        let TopLevel { position: _ } = self;
    }
}

impl Model for TopLevel {
    ghost use Rattle.std.specs.Prelude.{◌≡◌};
    ghost use Rattle.mmeaning.specs.LineMeaning as meaning;
    ghost use Rattle.mexec.specs.Frames.{position_of};

    ghost Value = { meaning.Position };

    ghost view = { λ top_level. position_of top_level.position.value };

    ghost invariant = { λ top_level. position_of top_level.position.value ≡ meaning.top_level };
}

impl TopLevel {
    // Takes memory for the lines that share it.
    pub(crate) fn new(alloc: Global) -> Result<TopLevel, AllocError> {
        let depth = Depth {
            levels: 0,
            indirections: 0,
            wants_value: false,
        };
        let level = Level {
            copy: Rc::new(alloc, Vec::new(alloc))?,
            next: None,
            dots: 0,
        };
        let position = Rc::new(alloc, Position { depth, level })?;
        Ok(TopLevel { position })
    }

    // The same for a line.
    pub(crate) fn position(&self) -> Result<Rc<Position>, AllocError>
        ensures { IfOk result (λ position. position_of position.value ≡ meaning.top_level) }
    {
        Ok(self.position.clone()?)
    }
}
