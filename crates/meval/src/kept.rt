// SPDX-License-Identifier: Apache-2.0
// Places, and names of locks, that the checks let through, as they are kept while more is evaluated: what is called meanwhile may end, and its
// tree with it.
ghost use Rattle.std.specs.Prelude.{◌≡◌};
ghost use Rattle.meval.specs.Held.{name_view};
ghost use Rattle.meval.specs.Kept.{readable_view};
ghost use Rattle.meval.specs.Places.{place_view};
ghost use Rattle.meval.specs.Words.{Yields, fault_of};
ghost use Rattle.mmeaning.specs.Variables as variables;
ghost use Rattle.mspec.specs.Act.{give};
ghost use Rattle.std.specs.Prelude.{◌≡◌, IfOk};

use crate::global_reference::key_with;
use crate::place::{Place, Subscripts, Walk};
use crate::value_list::Values;
use crate::variable_name::VariableName;
use mkey::AccountName;
use mlock::LockName;
use mnum::Name;
use moperator::Code;
use std::alloc::Global;
use std::marker::Model;

/// A place that the checks let through to be read. Contracts see it by `readable_view`, as one of the definitions.
pub enum Readable {
    /// A node of a local variable: its name, and its subscripts.
    Local(Name, Subscripts),
    /// A node of a global: the account, the name, and the subscripts.
    Node(AccountName, Name, Subscripts),
}

// Written out, so that dropping it is one call, which is proved once.
impl Drop for Readable {
    fn drop(self) {
        match self {
            Readable::Local(_, _) => {}
            Readable::Node(_, _, _) => {}
        }
    }
}

impl Readable {
    // The place, which no longer has its account and its name in hand.
    pub(crate) fn into_place(self, alloc: Global) -> Result<Place<'static>, Code>
        ensures does { Yields fault_of (give (readable_view self)) place_view result }
        ensures place { IfOk result (λ place. place_view place ≡ readable_view self) }
    {
        match self {
            Readable::Local(name, subscripts) => {
                Ok(Place::Local(VariableName::Own(name), subscripts))
            }
            Readable::Node(account, name, subscripts) => {
                let key = key_with(
                    alloc,
                    account.as_bytes(),
                    name.as_bytes7(),
                    subscripts.as_slice(),
                )?;
                Ok(Place::Node(key))
            }
        }
    }
}

// The place of a local variable with these subscripts; `Zsub` if they cannot be those of a node.
pub(crate) fn readable_local(name: VariableName, values: Values) -> Result<Readable, Code>
    ensures { Yields fault_of (variables.resolve variables.reading (variables.of_local (name_view name.entry) values)) readable_view result }
{
    let Some(subscripts) = Subscripts::new(values) else {
        return Err(Code::Zsub);
    };
    let name = name.into_name()?;
    Ok(Readable::Local(name, subscripts))
}

/// The name of a lock that the checks let through. Contracts see it as one of the definitions.
pub struct Lockable {
    pub(crate) global: bool,
    pub(crate) account: AccountName,
    pub(crate) name: Name,
    pub(crate) subscripts: Subscripts,
}

// Written out, so that dropping it is one call, which is proved once.
impl Drop for Lockable {
    fn drop(self) {
        let Lockable {
            global: _,
            account: _,
            name: _,
            subscripts: _,
        } = self;
    }
}

impl Model for Lockable {
    ghost use Rattle.mspec.specs.LockConflict.{LockName as Name};

    ghost Value = { Name };

    ghost view = { λ l. record { global = l.global; node = record { account = l.account; name = l.name; subscripts = l.subscripts } } };
}

impl Lockable {
    // The lock, which no longer has its account and its name in hand.
    fn lock(&self, alloc: Global) -> Result<LockName, Code>
        ensures name { IfOk result (λ name. name ≡ self.now) }
        ensures does { Yields fault_of (give self.now) (λ name. name) result }
    {
        let key = key_with(
            alloc,
            self.account.as_bytes(),
            self.name.as_bytes7(),
            self.subscripts.as_slice(),
        )?;
        Ok(LockName {
            key,
            global: self.global,
        })
    }
}

/// The locks of these names.
///
/// # Errors
///
/// `Zmem` if memory runs out.
pub fn locks_of(alloc: Global, all: &[Lockable]) -> Result<Vec<LockName>, Code>
    ensures names { IfOk result (λ names. names.items ≡ all.now) }
    ensures does { Yields fault_of (give all.now) (λ names. names.items) result }
{
    let mut names = Vec::with_capacity(alloc, all.len())?;
    for lockable in all {
        let name = lockable.lock(alloc)?;
        names.push(name)?;
    }
    Ok(names)
}

/// A place that the checks let through for $ORDER: its last subscript may be empty. Contracts see it as one of the definitions.
pub struct Walkable {
    pub(crate) walk: Walk<'static>,
}

// Written out, so that dropping it is one call, which is proved once.
impl Drop for Walkable {
    fn drop(self) {
        let Walkable { walk: _ } = self;
    }
}

impl Model for Walkable {
    ghost use Rattle.mmeaning.specs.Variables.{Place};
    ghost use Rattle.meval.specs.Places.{IsWalk, walk_view};

    ghost Value = { Place };

    ghost view = { λ walkable. walk_view walkable.walk };

    ghost invariant = { λ walkable. IsWalk walkable.walk };
}
