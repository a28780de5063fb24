// SPDX-License-Identifier: Apache-2.0
// The four writes.
ghost use Rattle.std.specs.Prelude.{◌≡◌, ◌<◌, length, IsTrue, OnOk, OnErr};
ghost use Rattle.sqlite_trees.specs.View.{is_int};
ghost use Rattle.sqlite_trees.specs.Tree.{rowid, put_row, insert_entry, remove_entry, without_rowid};
ghost use Rattle.mmemory.specs.States.{rows_of};
ghost use Rattle.mmemory.specs.Held.{now, Keeps, Writes, shape_at};

use crate::change::Change;
use crate::held::Held;
use crate::near::Near;
use crate::packed::Packed;
use crate::probe::Probe;
use sqlite_trees::store::Shape;
use sqlite_value::keys::Order;
use sqlite_value::row::Row;
use sqlite_value::value::ValueRef;
use std::alloc::AllocError;

impl Held {
    pub(crate) fn put(&mut self, tree: usize, row: &Row, near: &mut Near) -> Result<(), AllocError>
        requires tree { tree < length self.old.trees.items }
        requires table { shape_at self.old tree ≡ Shape.Table }
        requires keyed { IsTrue (is_int (rowid row.now)) }
        ensures ok { OnOk result (Writes self.old self.new tree (put_row row.now (rows_of (now self.old) tree))) }
        ensures err { OnErr result (Keeps self.old self.new) }
    {
        let new = Packed::of(self.alloc, row)?;
        let (place, hit) = self.trees[tree].seek(Probe::BelowRowid(row.get(0)), near.of(tree));
        near.keep(tree, place);
        if hit {
            return self.change(tree, Change::Set(place, new));
        }
        self.add(tree, place, new)
    }

    pub(crate) fn delete(&mut self, tree: usize, id: i64, near: &mut Near) -> Result<(), AllocError>
        requires tree { tree < length self.old.trees.items }
        requires table { shape_at self.old tree ≡ Shape.Table }
        ensures ok { OnOk result (Writes self.old self.new tree (without_rowid id (rows_of (now self.old) tree))) }
        ensures err { OnErr result (Keeps self.old self.new) }
    {
        let (place, hit) = self.trees[tree].seek(
            Probe::BelowRowid(ValueRef::Int(id)),
            near.of(tree),
        );
        near.keep(tree, place);
        if !hit {
            return Ok(());
        }
        self.change(tree, Change::Take(place))
    }

    pub(crate) fn insert(
        &mut self,
        tree: usize,
        order: Order,
        entry: &Row,
        near: &mut Near,
    ) -> Result<(), AllocError>
        requires tree { tree < length self.old.trees.items }
        requires index { shape_at self.old tree ≡ Shape.Index order }
        ensures ok { OnOk result (Writes self.old self.new tree (insert_entry order entry.now (rows_of (now self.old) tree))) }
        ensures err { OnErr result (Keeps self.old self.new) }
    {
        let (place, hit) = self.trees[tree].seek(Probe::BelowEntry(order, entry), near.of(tree));
        near.keep(tree, place);
        if hit {
            return Ok(());
        }
        let new = Packed::of(self.alloc, entry)?;
        self.add(tree, place, new)
    }

    pub(crate) fn remove(
        &mut self,
        tree: usize,
        order: Order,
        entry: &Row,
        near: &mut Near,
    ) -> Result<(), AllocError>
        requires tree { tree < length self.old.trees.items }
        requires index { shape_at self.old tree ≡ Shape.Index order }
        ensures ok { OnOk result (Writes self.old self.new tree (remove_entry order entry.now (rows_of (now self.old) tree))) }
        ensures err { OnErr result (Keeps self.old self.new) }
    {
        let (place, hit) = self.trees[tree].seek(Probe::BelowEntry(order, entry), near.of(tree));
        near.keep(tree, place);
        if !hit {
            return Ok(());
        }
        self.change(tree, Change::Take(place))
    }
}
