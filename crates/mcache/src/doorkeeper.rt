// SPDX-License-Identifier: Apache-2.0
// Texts that came recently.
use std::alloc::{AllocError, Global};
use std::hash::{BuildHasher, BuildHasherDefault, FoldHasher};
use std::mem;

// How many texts are remembered at most.
const PLACES: usize = 1024;

// Marks of texts that came recently and were not kept, each at the place that its hash gives, so that a text that comes again is known
// apart from one that comes once. A later text may take its place, and two texts may have the same mark; that costs time, and shows in
// no answer.
#[derive(Drop)]
pub(crate) struct Doorkeeper {
    marks: Vec<u32>,
}

impl Doorkeeper {
    // With no text yet.
    pub(crate) fn new(alloc: Global) -> Result<Doorkeeper, AllocError> {
        let mut marks = Vec::with_capacity(alloc, PLACES)?;
        for _ in 0..PLACES {
            marks.push(0)?;
        }
        Ok(Doorkeeper { marks })
    }

    // Whether the text came recently. From now on, it did. Takes no memory.
    pub(crate) fn note(&mut self, text: &[u8]) -> bool {
        let hash = BuildHasherDefault::<FoldHasher>::new().hash_one(text);
        let mark = (hash >> 32) as u32;
        match self.marks.get_mut(hash as usize % PLACES) {
            None => false,
            Some(place) => mem::replace(place, mark) == mark,
        }
    }
}
