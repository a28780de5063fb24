// SPDX-License-Identifier: Apache-2.0
// Changes that are taken back. One that does not fit changes nothing, and none needs memory.
ghost use Rattle.std.specs.Prelude.{◌≡◌, set};
ghost use Rattle.mmemory.specs.Lists.{put_in, taken, over, joined_at};
ghost use Rattle.mmemory.specs.Plain.{plain, with_chunks, put_back, bare_rows, tree_nest, undone_step};
ghost use Rattle.mmemory.specs.States.{state_of, undone_one};

use crate::chunk::{Bare, CHUNK_LIMIT, Chunk};
use crate::packed::Packed;
use crate::step::Step;
use crate::tree::Tree;
use crate::undo::Undo;

impl Tree {
    fn drop_row(&mut self, chunk: usize, at: usize)
        ensures { plain self.new ≡ with_chunks (plain self.old) (over chunk (taken at) (tree_nest self.old)) }
    {
        if chunk < self.chunks.len() {
            self.chunks[chunk].drop_row(at);
        }
    }

    fn put_row(&mut self, chunk: usize, at: usize, row: Packed)
        ensures { plain self.new ≡ with_chunks (plain self.old) (over chunk (put_in at row) (tree_nest self.old)) }
    {
        if chunk < self.chunks.len() {
            self.chunks[chunk].put(at, row);
        }
    }

    fn set_row(&mut self, chunk: usize, at: usize, row: Packed)
        ensures { plain self.new ≡ with_chunks (plain self.old) (over chunk (λ rows. set rows at row) (tree_nest self.old)) }
    {
        if chunk < self.chunks.len() && at < self.chunks[chunk].rows.len() {
            let _ = self.chunks[chunk].set(at, row);
        }
    }

    fn drop_chunk(&mut self, chunk: usize)
        ensures { plain self.new ≡ undone_step (Step.DropChunk chunk) (plain self.old) }
    {
        if chunk < self.chunks.len() {
            let _ = self.chunks.remove(chunk);
        }
    }

    fn put_chunk(&mut self, chunk: usize, it: Bare)
        ensures { plain self.new ≡ put_back chunk (bare_rows it) self.old.spare (plain self.old) }
    {
        if self.spare == 0 {
            return;
        }
        let at = chunk.min(self.chunks.len());
        self.spare -= 1;
        let back = Chunk::of_bare(it);
        self.chunks.insert(at, back).unwrap();
    }

    fn join(&mut self, chunk: usize)
        ensures { plain self.new ≡ with_chunks (plain self.old) (joined_at chunk (tree_nest self.old)) }
    {
        if self.chunks.len() < 2 || chunk >= self.chunks.len() - 1 {
            return;
        }
        if self.chunks[chunk].rows.len() + self.chunks[chunk + 1].rows.len() > CHUNK_LIMIT {
            return;
        }
        let tail = self.chunks.remove(chunk + 1);
        self.chunks[chunk].join(tail);
    }

    pub(crate) fn undo(&mut self, step: Step)
        ensures { plain self.new ≡ undone_step step (plain self.old) }
    {
        match step {
            Step::DropRow(chunk, at) => self.drop_row(chunk, at),
            Step::PutRow(chunk, at, row) => self.put_row(chunk, at, row),
            Step::SetRow(chunk, at, row) => self.set_row(chunk, at, row),
            Step::DropChunk(chunk) => self.drop_chunk(chunk),
            Step::PutChunk(chunk, it) => self.put_chunk(chunk, it),
            Step::Join(chunk) => self.join(chunk),
            Step::Label(reals, described) => {
                self.reals = reals;
                self.described = described;
            }
        }
    }
}

// Takes one change back.
pub(crate) fn undo(trees: &mut Vec<Tree>, version: &mut u32, change: Undo)
    ensures { state_of trees.new.items version.new ≡ undone_one change (state_of trees.old.items version.old) }
{
    match change {
        Undo::Step(tree, step) => {
            if tree < trees.len() {
                trees[tree].undo(step);
            }
        }
        Undo::Put(tree, it) => {
            if tree < trees.len() {
                trees[tree] = Box::into_inner(it);
            }
        }
        Undo::Shorten(len) => trees.truncate(len),
        Undo::Version(old) => *version = old,
    }
}
