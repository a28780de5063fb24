// SPDX-License-Identifier: Apache-2.0
// Levels of execution, and the lines of routines that run in them.
ghost use Rattle.std.specs.Prelude.{◌≡◌, ◌<◌, None, Some, Ok, IfOk, IfErr};
ghost use Rattle.mlocal.specs.Bindings.{bindings_of};
ghost use Rattle.mspec.specs.Access.{Read};
ghost use Rattle.mspec.specs.Act.{with_locals, level_begun, level_bound, ask};
ghost use Rattle.mspec.specs.Globals.{routines_of};
ghost use Rattle.mspec.specs.KeyBytes.{IsAccountName};
ghost use Rattle.mspec.specs.Limits.{max_levels};
ghost use Rattle.mspec.specs.Plan.{Routine};
ghost use Rattle.mspec.specs.Scopes.{without_level};
ghost use Rattle.mmeaning.specs.Levels.{a_level_free, lines_of_routine};
ghost use Rattle.mmeaning.specs.Variables.{allowed, at_node};
ghost use Rattle.mtree.specs.Tree.{shared_tree};
ghost use Rattle.meval.specs.Evaluates.{Evaluates, standing_of};
ghost use Rattle.meval.specs.Places.{IsOpen};
ghost use Rattle.moperator.specs.declared.code.Code.TheVariants.{Zdepth};

use crate::eval::Eval;
use crate::globals::code_of;
use mglobal::shared_routine;
use mgrant::Mode;
use mkey::is_account_name;
use mlocal::Binding;
use mnodes::NodeStore;
use mnum::{Bytes7, Name};
use moperator::Code;
use mspec::limits::MAX_LEVELS;
use mtree::SharedRoutine;
use std::alloc::Global;
use std::rc::Rc;

impl<'a, S: NodeStore> Eval<'a, S> {
    /// Whether one more level may be opened where the text stands. Takes no memory.
    ///
    /// # Errors
    ///
    /// `Zdepth` if 256 are open.
    pub fn a_level_free(&self) -> Result<(), Code>
        ensures free { IfOk result (λ _. self.now.depth.levels < max_levels) }
        ensures full { IfErr result (λ code. code ≡ Zdepth) }
        ensures does { Evaluates S.NodeStore (λ i. a_level_free i.depth) (λ u. u) self.now result self.now }
    {
        if self.depth.levels < MAX_LEVELS {
            Ok(())
        } else {
            Err(Code::Zdepth)
        }
    }

    /// Opens a level: what NEW hides from now on comes back once it is closed.
    ///
    /// # Errors
    ///
    /// `Zmem` if memory runs out; all variables are then as they were.
    #[tactic(auto, unfolding(mspec::specs::Act::level_begun))]
    pub fn open_level(&mut self) -> Result<(), Code>
        ensures { Evaluates S.NodeStore (λ i. with_locals level_begun) (λ u. u) self.old result self.new }
    {
        self.session.locals.enter()?;
        Ok(())
    }

    /// Opens a level with formal parameters, whose names are all different: each is a variable of its own, or another name of one of the
    /// caller's.
    ///
    /// # Errors
    ///
    /// `Zmem` if memory runs out; all variables are then as they were.
    #[tactic(auto, unfolding(mspec::specs::Act::level_bound))]
    pub fn open_bound_level(&mut self, bindings: Vec<(Name, Binding)>) -> Result<(), Code>
        ensures { Evaluates S.NodeStore (λ i. with_locals (level_bound (bindings_of bindings.items))) (λ u. u) self.old result self.new }
    {
        self.session.locals.enter_bound(bindings)?;
        Ok(())
    }

    /// Closes the level opened last; does nothing if none is open. Takes no memory.
    pub fn close_level(&mut self)
        ensures { Evaluates S.NodeStore (λ i. with_locals without_level) (λ u. u) self.old (Ok tt) self.new }
    {
        self.session.locals.leave();
    }

    /// The lines of one of the account's own routines, in order; none if it has no such routine.
    ///
    /// # Errors
    ///
    /// `Zmem` if memory is refused, or if the account is not one of the settings', which no world hands in; `Zstore` if the store refuses.
    pub fn routine(&mut self, alloc: Global, name: &Name) -> Result<Rc<Vec<Bytes7>>, Code>
        ensures { Evaluates S.NodeStore (λ i. ask (Routine None name.now)) (λ lines. lines.value.items) self.old result self.new }
    {
        let own = self.settings.name_of(self.account);
        if own.is_empty() {
            // the id is from other settings, which a world never hands in
            return Err(Code::Zmem);
        }
        let account = Bytes7::from_slice(alloc, own)?;
        match shared_routine(self.store, alloc, &account, name.as_bytes7()) {
            Ok(lines) => Ok(lines),
            Err(fault) => Err(code_of(fault)),
        }
    }

    // Whether the account may read the routines of another one. Takes no memory.
    fn check_routines(&self, owner: &Bytes7) -> Result<(), Code>
        ensures account { IfOk result (λ _. IsAccountName owner.now) }
        ensures allowed { IfOk result (λ _. IsOpen (standing_of self.now) Read (at_node (routines_of owner.now))) }
        ensures does { Evaluates S.NodeStore (λ i. allowed Read (routines_of owner.now)) (λ u. u) self.now result self.now }
    {
        if !is_account_name(owner) {
            return Err(Code::Zgrant);
        }
        let owner_name = owner.as_bytes();
        if !self
            .settings
            .may(self.account, owner_name, b"ROUTINE", Mode::Read)
        {
            return Err(Code::Zgrant);
        }
        Ok(())
    }

    // The lines of a routine of an account whose routines may be read.
    fn lines_of(
        &mut self,
        alloc: Global,
        owner: &Bytes7,
        name: &Name,
    ) -> Result<Rc<Vec<Bytes7>>, Code>
        requires account { IsAccountName owner.now }
        requires allowed { IsOpen (standing_of self.old) Read (at_node (routines_of owner.now)) }
        ensures { Evaluates S.NodeStore (λ i. ask (Routine (Some owner.now) name.now)) (λ lines. lines.value.items) self.old result self.new }
    {
        match shared_routine(self.store, alloc, owner, name.as_bytes7()) {
            Ok(found) => Ok(found),
            Err(fault) => Err(code_of(fault)),
        }
    }

    /// The lines of a routine of another account, in order; none if that one has no such routine.
    ///
    /// # Errors
    ///
    /// `Zgrant` if no account can have the name, or if that account does not let this one read its global `ROUTINE`: one that is not there
    /// lets nobody; `Zmem` if memory is refused; `Zstore` if the store refuses.
    pub fn routine_of(
        &mut self,
        alloc: Global,
        routine: &SharedRoutine,
    ) -> Result<Rc<Vec<Bytes7>>, Code>
        ensures { Evaluates S.NodeStore (λ i. lines_of_routine (shared_tree routine.now)) (λ lines. lines.value.items) self.old result self.new }
    {
        self.check_routines(&routine.account)?;
        self.lines_of(alloc, &routine.account, &routine.name)
    }
}
