// SPDX-License-Identifier: Apache-2.0
// From which levels on no name of a slot is known.
ghost use Rattle.std.specs.Prelude.{◌≡◌, ◌<◌, None, Some, false};
ghost use Rattle.std.specs.Map.{keys_of, lookup};
ghost use Rattle.mspec.specs.Node.{Text};
ghost use Rattle.mspec.specs.Scopes.{is_among};
ghost use Rattle.mspec.specs.Trees.{text_eq};
ghost use Rattle.mlocal.specs.Home.{slot, place_at, IsRaised};

use crate::variable::Variable;
use mnum::Name;

// How many slots there are.
pub(crate) const SLOTS: usize = 64;

// By the slot of a name: a place from which on no level has a name with that slot, or a link of one.
pub(crate) type Places = [usize; SLOTS];

// The slot of a name. Any would do; names of one letter have slots of their own.
#[inline(always)]
pub(crate) fn slot_of(name: &Name) -> usize
    ensures slot { result ≡ slot name.now }
    ensures within { result < SLOTS }
{
    let bytes = name.as_bytes();
    let count = bytes.len();
    let first = usize::from(bytes[0]);
    let last = usize::from(bytes[count - 1]);
    (first + 4 * last + count) % SLOTS
}

// Raises all places to this one.
pub(crate) fn raise_all(places: &mut Places, place: usize)
    ensures { (n : Text) → place_at places.new n ≡ place }
{
    for slot in 0..SLOTS {
        places[slot] = place;
    }
}

// Raises the places of the names of these entries to this one.
pub(crate) fn raise_named(places: &mut Places, place: usize, named: &[(Name, Variable)])
    ensures { IsRaised (λ n. is_among (keys_of named.now) n ≡ false) place places.old places.new }
{
    for entry in named {
        places[slot_of(&entry.0)] = place;
    }
}

// Raises the places of the names of these links to this one.
pub(crate) fn raise_links(places: &mut Places, place: usize, links: &[(Name, Name)])
    ensures { IsRaised (λ n. lookup (text_eq n) links.now ≡ None) place places.old places.new }
{
    for link in links {
        places[slot_of(&link.0)] = place;
    }
}
