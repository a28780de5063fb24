// SPDX-License-Identifier: Apache-2.0
// What lines are run with.
ghost use Rattle.std.specs.Prelude.{◌≡◌, ◌<◌, [], IfOk};

use crate::frames::{Frame, Position};
use crate::top_level::TopLevel;
use mcache::Trees;
use std::alloc::{AllocError, Global};
use std::rc::Rc;

/// What lines are run with, and what is kept from one to the next, so that no memory has to be asked for again: space for frames, the
/// trees of texts, where each line begins, and the place of a level that is closed. What it keeps shows in no answer.
pub struct Scratch {
    pub(crate) frames: Vec<Frame>,
    pub(crate) trees: Trees,
    pub(crate) top_level: TopLevel,
    pub(crate) spare: Option<Rc<Position>>,
}

// Written out, so that dropping it is one call, which is proved once.
impl Drop for Scratch {
    fn drop(self) {
        let Scratch {
            frames: _,
            trees: _,
            top_level: _,
            spare: _,
        } = self;
    }
}

// A position in the place of another, if nobody shares that.
fn in_place_of(
    alloc: Global,
    spare: Rc<Position>,
    position: Position,
) -> Result<Rc<Position>, AllocError>
    ensures { IfOk result (λ there. there.value ≡ position) }
{
    let mut there = spare;
    match Rc::get_mut(&mut there) {
        None => Ok(Rc::new(alloc, position)?),
        Some(place) => {
            *place = position;
            Ok(there)
        }
    }
}

impl Scratch {
    /// A scratch that keeps the trees of at most `entries` texts.
    ///
    /// # Errors
    ///
    /// `AllocError` if memory runs out.
    pub fn new(alloc: Global, entries: usize) -> Result<Scratch, AllocError>
        requires { 0 < entries }
        ensures frames { IfOk result (λ scratch. scratch.frames.items ≡ []) }
        ensures trees { IfOk result (λ scratch. scratch.trees ≡ entries) }
    {
        Ok(Scratch {
            frames: Vec::with_capacity(alloc, 16)?,
            trees: Trees::new(alloc, entries)?,
            top_level: TopLevel::new(alloc)?,
            spare: None,
        })
    }

    // A position that frames may share. It takes the memory of one that nobody has any more, if one is kept.
    #[inline(always)]
    pub(crate) fn shared(
        &mut self,
        alloc: Global,
        position: Position,
    ) -> Result<Rc<Position>, AllocError>
        ensures value { IfOk result (λ there. there.value ≡ position) }
        ensures frames { self.new.frames ≡ self.old.frames }
    {
        match self.spare.take() {
            None => Ok(Rc::new(alloc, position)?),
            Some(spare) => in_place_of(alloc, spare, position),
        }
    }

    // Keeps the position of a level that is closed for the next, unless one is kept.
    #[inline(always)]
    pub(crate) fn keep(&mut self, position: Rc<Position>)
        ensures { self.new.frames ≡ self.old.frames }
    {
        if self.spare.is_none() {
            self.spare = Some(position);
        }
    }
}
