// SPDX-License-Identifier: Apache-2.0
// Names of variables, as references give them.
ghost use Rattle.std.specs.Prelude.{◌≡◌, IfOk};
ghost use Rattle.meval.specs.Held.{name_view};

use mnum::Name;
use std::alloc::AllocError;

/// The name of a variable, as a reference gives it. Contracts see it by `name_view`, as its text.
pub enum VariableName<'t> {
    /// One that the tree of the line holds.
    Lent(&'t Name),
    /// One that a text gave.
    Own(Name),
}

// Written out, so that dropping it is one call, which is proved once.
impl<'t> Drop for VariableName<'t> {
    fn drop(self) {
        match self {
            VariableName::Lent(_) => {}
            VariableName::Own(_) => {}
        }
    }
}

impl<'t> VariableName<'t> {
    /// The name. Takes no memory.
    pub fn as_name(&self) -> &Name
        ensures { result.now ≡ name_view self.now }
    {
        match self {
            VariableName::Lent(name) => name,
            VariableName::Own(name) => name,
        }
    }

    // The name itself, which is copied if it is lent.
    pub(crate) fn into_name(self) -> Result<Name, AllocError>
        ensures { IfOk result (λ name. name ≡ name_view self.entry) }
    {
        match self {
            VariableName::Lent(name) => name.copy(),
            VariableName::Own(name) => Ok(name),
        }
    }

    // The same name, which no tree need hold.
    pub(crate) fn into_own<'u>(self) -> Result<VariableName<'u>, AllocError>
        ensures { IfOk result (λ own. name_view own ≡ name_view self.entry) }
    {
        let name = self.into_name()?;
        Ok(VariableName::Own(name))
    }

    // A copy of the name. Takes no memory if it is lent.
    pub(crate) fn copy(&self) -> Result<VariableName<'t>, AllocError>
        ensures { IfOk result (λ again. name_view again ≡ name_view self.now) }
    {
        match self {
            VariableName::Lent(name) => Ok(VariableName::Lent(name)),
            VariableName::Own(name) => Ok(VariableName::Own(name.copy()?)),
        }
    }
}
