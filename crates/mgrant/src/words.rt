// SPDX-License-Identifier: Apache-2.0
// Different texts, each known by its place.
ghost use Rattle.std.specs.Prelude.{◌≡◌, ◌∷◌, [], ◌++◌, IfOk, IfSome, IfNone, false, length};
ghost use Rattle.std.specs.List.{list_any};
ghost use Rattle.mspec.specs.Trees.{text_eq};
ghost use Rattle.mgrant.specs.Words.{text_in, found_at, IsPlaceOf};

use std::alloc::{AllocError, Global};
use std::collections::HashMap;
use std::marker::Model;

// Texts with their places.
pub(crate) type Places = HashMap<Vec<u8>, usize>;

// The place that the map has for a text.
pub(crate) fn place_in(places: &Places, text: &[u8]) -> Option<usize>
    ensures { result ≡ found_at places.now text.now }
{
    places.get(text).copied()
}

// Texts, none of which is there twice, in the order in which they came. A text's place is found by hashing it.
#[derive(Drop)]
pub(crate) struct Words {
    list: Vec<Vec<u8>>,
    places: Places,
}

impl Model for Words {
    ghost use Rattle.std.specs.Prelude.{ℕ, List};
    ghost use Rattle.mgrant.specs.Words.{texts_of, IsIndex};

    ghost Value = { List (List ℕ) };

    ghost view = { λ words. texts_of words.list.items };

    ghost invariant = { λ words. IsIndex (texts_of words.list.items) words.places };
}

impl Words {
    // No texts. Takes no memory.
    pub fn new(alloc: Global) -> Words
        ensures { result ≡ [] }
    {
        Words {
            list: Vec::new(alloc),
            places: HashMap::new(alloc),
        }
    }

    // How many there are.
    pub fn len(&self) -> usize
        ensures { result ≡ length self.now }
    {
        self.list.len()
    }

    // The text at a place, or an empty one if there is none.
    pub fn at(&self, place: usize) -> &[u8]
        ensures { result.now ≡ text_in self.now place }
    {
        match self.list.get(place) {
            Some(text) => text.as_slice(),
            None => &[],
        }
    }

    // The place of a text.
    #[tactic(auto, using(crate::proofs::Places::place_told, crate::proofs::Places::absence_told))]
    pub fn find(&self, text: &[u8]) -> Option<usize>
        ensures found { IfSome result (IsPlaceOf self.now text.now) }
        ensures absent { IfNone result (list_any (text_eq text.now) self.now ≡ false) }
    {
        place_in(&self.places, text)
    }

    // With one more text after the others.
    pub fn with(self, text: Vec<u8>) -> Result<Words, AllocError>
        requires { list_any (text_eq text.items) self ≡ false }
        ensures { IfOk result (λ words. words ≡ self ++ text.items ∷ []) }
    {
        let Words {
            mut list,
            mut places,
        } = self;
        let key = Vec::from_slice(*list.allocator(), &text)?;
        places.insert(key, list.len())?;
        list.push(text)?;
        Ok(Words { list, places })
    }
}
