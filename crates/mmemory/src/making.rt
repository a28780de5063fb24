// SPDX-License-Identifier: Apache-2.0
// Trees that are made, dropped and described.
ghost use Rattle.std.specs.Prelude.{◌≡◌, ◌^◌, ◌<◌, [], map, replicate, length, take, if◌then◌else◌, is_ok, IfOk, OnOk, OnErr};
ghost use Rattle.sqlite_trees.specs.Objects.{description, listing};
ghost use Rattle.mmemory.specs.Plain.{plain, no_plain, heading};
ghost use Rattle.mmemory.specs.Changes.{Describes};
ghost use Rattle.mmemory.specs.Held.{now, Keeps, KeepsPast, KeepsShown, Pads, Puts, Relabels};

use crate::held::Held;
use crate::step::Step;
use crate::tree::Tree;
use crate::undo::Undo;
use sqlite_trees::schema::Object;
use sqlite_trees::store::Shape;
use sqlite_value::row::Row;
use sqlite_value::value::ValueRef;
use std::alloc::{AllocError, Global};
use std::mem;

impl Tree {
    pub(crate) fn new(alloc: Global, object: &Object<'_>) -> Result<Tree, AllocError>
        ensures heading { IfOk result (λ t. heading (plain t) ≡ (object.now.shape, object.now.reals, description object.now)) }
        ensures rows { IfOk result (λ t. t.chunks.items ≡ []) }
    {
        let described = object.describe(alloc)?;
        Ok(Tree {
            shape: object.shape,
            reals: object.reals,
            described,
            chunks: Vec::new(alloc),
            spare: 0,
        })
    }

    pub(crate) fn absent(alloc: Global) -> Tree
        ensures { plain result ≡ no_plain }
    {
        Tree {
            shape: Shape::Absent,
            reals: 0,
            described: Row::new(alloc),
            chunks: Vec::new(alloc),
            spare: 0,
        }
    }

    // The row of the list of objects for the tree with this number.
    pub(crate) fn listing(&self, alloc: Global, tree: usize) -> Result<Row, AllocError>
        requires { tree < 2 ^ 62 }
        ensures { IfOk result (λ row. row ≡ take 5 (listing tree self.now.described self.now.shape self.now.reals)) }
    {
        let mut row = Row::new(alloc);
        row.push(ValueRef::Int(tree as i64 + 1))?;
        row.push(self.described.get(0))?;
        row.push(self.described.get(1))?;
        row.push(self.described.get(2))?;
        row.push(self.described.get(3))?;
        Ok(row)
    }

    // Describes the tree as another object.
    fn describe(&mut self, reals: u64, described: Row) -> Step
        ensures { Describes (plain self.old) (plain self.new) result reals described }
    {
        let old = mem::replace(&mut self.described, described);
        let old_reals = mem::replace(&mut self.reals, reals);
        Step::Label(old_reals, old)
    }
}

// Trees that are not there.
fn absent_trees(alloc: Global, count: usize) -> Result<Vec<Tree>, AllocError>
    ensures { IfOk result (λ v. map plain v.items ≡ replicate count no_plain) }
{
    let mut trees = Vec::with_capacity(alloc, count)?;
    for _ in 0..count {
        trees.push(Tree::absent(alloc))?;
    }
    Ok(trees)
}

impl Held {
    // Lists trees that are not there up to a number.
    fn make_room(&mut self, tree: usize) -> Result<(), AllocError>
        requires { tree < 2 ^ 32 }
        ensures room { OnOk result (tree < length self.new.trees.items) }
        ensures ok { OnOk result (Pads self.old self.new tree) }
        ensures err { OnErr result (Keeps self.old self.new) }
    {
        let len = self.trees.len();
        if tree < len {
            return Ok(());
        }
        self.log.reserve(1)?;
        let mut more = absent_trees(self.alloc, tree - len + 1)?;
        self.trees.append(&mut more)?;
        self.log.push(Undo::Shorten(len)).unwrap();
        Ok(())
    }

    // Another tree in place of one.
    pub(crate) fn replace(&mut self, tree: u32, new: Tree) -> Result<(), AllocError>
        requires { new.chunks.items ≡ [] }
        ensures ok { OnOk result (Puts self.old self.new tree (plain new)) }
        ensures err { OnErr result (KeepsShown self.old self.new) }
    {
        let at = tree as usize;
        let mut kept = Box::new(self.alloc, new).map_err(|_| AllocError)?;
        self.make_room(at)?;
        self.log.reserve(1)?;
        mem::swap(&mut self.trees[at], kept.as_mut());
        self.log.push(Undo::Put(at, kept)).unwrap();
        Ok(())
    }

    // Lists a tree as another object.
    pub(crate) fn relabel(&mut self, tree: usize, object: &Object<'_>) -> Result<(), AllocError>
        requires { tree < length self.old.trees.items }
        ensures ok { OnOk result (Relabels self.old self.new tree object.now) }
        ensures err { OnErr result (Keeps self.old self.new) }
    {
        let described = object.describe(self.alloc)?;
        self.log.reserve(1)?;
        let step = self.trees[tree].describe(object.reals, described);
        self.log.push(Undo::Step(tree, step)).unwrap();
        Ok(())
    }

    pub(crate) fn set_version(&mut self, version: u32) -> Result<(), AllocError>
        ensures past { KeepsPast self.old self.new }
        ensures trees { (now self.new).trees ≡ (now self.old).trees }
        ensures version { self.new.version ≡ (if is_ok result then version else self.old.version) }
    {
        self.log.reserve(1)?;
        let old = mem::replace(&mut self.version, version);
        self.log.push(Undo::Version(old)).unwrap();
        Ok(())
    }
}
