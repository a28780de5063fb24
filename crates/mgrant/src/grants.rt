// SPDX-License-Identifier: Apache-2.0
// Grants between accounts that are known by their places.
ghost use Rattle.std.specs.Prelude.{◌≡◌, ◌∷◌, [], ◌++◌, ◌||◌, ℕ, List, map, IfOk};
ghost use Rattle.mspec.specs.Node.{Text};
ghost use Rattle.std.specs.List.{list_any};
ghost use Rattle.mspec.specs.Access as access;
ghost use Rattle.mgrant.specs.Placed.{mode_of, placed, allows_so, lets_at, carries_at, ties_at, IsInterned};
ghost use Rattle.mgrant.specs.Edges.{leads};

use crate::flow::Edge;
use crate::mode::Mode;
use crate::words::Words;
use std::alloc::{AllocError, Global};
use std::collections::HashMap;
use std::marker::Model;

// Who lets whom use what: the places of two accounts, and that of the global's name.
#[derive(Clone, Copy, PartialEq, Eq, Hash)]
pub(crate) struct Permit {
    from: usize,
    to: usize,
    global: usize,
}

// A grant, as it came.
#[derive(Clone, Copy)]
pub(crate) struct Given {
    permit: Permit,
    mode: Mode,
}

// Grants in the order in which they came. What one account lets another do with a global is found by hashing.
#[derive(Drop)]
pub(crate) struct Grants {
    globals: Words,
    list: Vec<Given>,
    allowed: HashMap<Permit, Mode>,
}

impl Model for Grants {
    ghost use Rattle.std.specs.Prelude.{List, map};
    ghost use Rattle.mgrant.specs.Placed.{Placed, placed, AreKept};

    ghost Value = { List Placed };

    ghost view = { λ grants. map (placed grants.globals) grants.list.items };

    ghost invariant = { λ grants. AreKept grants.globals grants.list.items grants.allowed };
}

// The place of a global's name among the others. The name may be a new one.
fn interned(globals: Words, name: Vec<u8>) -> Result<(Words, usize), AllocError>
    ensures { IfOk result (IsInterned globals name.items) }
{
    match globals.find(&name) {
        Some(place) => Ok((globals, place)),
        None => {
            let place = globals.len();
            Ok((globals.with(name)?, place))
        }
    }
}

// The wider of two modes, if there is an earlier one.
fn wider(earlier: Option<Mode>, mode: Mode) -> Mode
    ensures { (asked : access.Mode) → access.allows (mode_of result) asked ≡ (allows_so earlier asked || access.allows (mode_of mode) asked) }
{
    match earlier {
        Some(Mode::Write) => Mode::Write,
        _ => mode,
    }
}

// Whether the mode that was found allows another.
fn allows(found: Option<Mode>, asked: Mode) -> bool
    ensures { result ≡ allows_so found (mode_of asked) }
{
    match found {
        Some(Mode::Write) => true,
        Some(Mode::Read) => asked == Mode::Read,
        None => false,
    }
}

// The steps of flow that grants make.
fn edges_of(alloc: Global, list: &[Given]) -> Result<Vec<Edge>, AllocError>
    ensures { IfOk result (λ edges. (globals : List Text) (x y : ℕ) → list_any (leads x y) edges.items ≡ list_any (carries_at x y) (map
        (placed globals) list.now)) }
{
    let mut edges = Vec::new(alloc);
    for given in list {
        let Permit { from, to, .. } = given.permit;
        edges.push(Edge {
            source: from,
            target: to,
        })?;
        if given.mode == Mode::Write {
            edges.push(Edge {
                source: to,
                target: from,
            })?;
        }
    }
    Ok(edges)
}

// The steps between the two accounts of each grant, in both directions.
fn ties_of(alloc: Global, list: &[Given]) -> Result<Vec<Edge>, AllocError>
    ensures { IfOk result (λ edges. (globals : List Text) (x y : ℕ) → list_any (leads x y) edges.items ≡ list_any (ties_at x y) (map
        (placed globals) list.now)) }
{
    let mut edges = Vec::new(alloc);
    for given in list {
        let Permit { from, to, .. } = given.permit;
        let there = Edge {
            source: from,
            target: to,
        };
        let back = there.turned();
        edges.push(there)?;
        edges.push(back)?;
    }
    Ok(edges)
}

impl Grants {
    // No grants. Takes no memory.
    pub fn new(alloc: Global) -> Grants
        ensures { result ≡ [] }
    {
        Grants {
            globals: Words::new(alloc),
            list: Vec::new(alloc),
            allowed: HashMap::new(alloc),
        }
    }

    // With one more grant after the others.
    pub fn with(
        self,
        from: usize,
        to: usize,
        global: Vec<u8>,
        mode: Mode,
    ) -> Result<Grants, AllocError>
        ensures { IfOk result (λ grants. grants ≡ self ++ (record { from = from; to = to; global = global.items; mode = mode_of mode }) ∷ []) }
    {
        let Grants {
            globals,
            mut list,
            mut allowed,
        } = self;
        let (globals, global) = interned(globals, global)?;
        let permit = Permit { from, to, global };
        let best = wider(allowed.get(&permit).copied(), mode);
        allowed.insert(permit, best)?;
        list.push(Given { permit, mode })?;
        Ok(Grants {
            globals,
            list,
            allowed,
        })
    }

    // Whether one of the grants lets an account use a global of the owner in this mode. Takes no memory.
    #[tactic(auto, using(crate::proofs::Allowances::lets_none))]
    pub fn allow(&self, to: usize, from: usize, global: &[u8], mode: Mode) -> bool
        ensures { result ≡ list_any (lets_at to from global.now (mode_of mode)) self.now }
    {
        match self.globals.find(global) {
            Some(global) => {
                let found = self.allowed.get(&Permit { from, to, global }).copied();
                allows(found, mode)
            }
            None => false,
        }
    }

    // The steps of flow that the grants make.
    pub fn edges(&self, alloc: Global) -> Result<Vec<Edge>, AllocError>
        ensures { IfOk result (λ edges. (x y : ℕ) → list_any (leads x y) edges.items ≡ list_any (carries_at x y) self.now) }
    {
        edges_of(alloc, &self.list)
    }

    // The steps between the two accounts of each grant, in both directions.
    pub fn ties(&self, alloc: Global) -> Result<Vec<Edge>, AllocError>
        ensures { IfOk result (λ edges. (x y : ℕ) → list_any (leads x y) edges.items ≡ list_any (ties_at x y) self.now) }
    {
        ties_of(alloc, &self.list)
    }
}
