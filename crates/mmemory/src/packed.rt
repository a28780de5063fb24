// SPDX-License-Identifier: Apache-2.0
// Rows as trees keep them.
ghost use Rattle.std.specs.Prelude.{◌≡◌, ◌∷◌, [], ◌++◌, ◌≤◌, length, IfOk, OnOk};
ghost use Rattle.sqlite_value.specs.Value.{owned};
ghost use Rattle.sqlite_value.specs.Order.{column};
ghost use Rattle.sqlite_value.specs.Keys.{entry_cmp, prefix_cmp};
ghost use Rattle.sqlite_value.specs.declared.value.Value.{Value as SqlValue};

use sqlite_value::keys::Order;
use sqlite_value::row::Row;
use sqlite_value::value::ValueRef;
use std::alloc::{AllocError, Global};
use std::cmp::Ordering;
use std::marker::Model;

/// The two forms that a table of keys and texts has take one block of memory each.
#[derive(Drop)]
enum Form {
    /// A blob, and a number.
    Entry(Vec<u8>, i64),
    /// A number, and the bytes of two blobs, after the place where the second begins. In this order a row takes 40 bytes, and not 48.
    Node(u32, i64, Vec<u8>),
    /// Any other row.
    Other(Box<Row>),
}

/// A row as a tree keeps it, in less memory than a `Row` takes.
#[derive(Drop)]
pub(crate) struct Packed {
    form: Form,
}

impl Model for Packed {
    ghost use Rattle.std.specs.Prelude.{List};
    ghost use Rattle.std.specs.Coded.{coded_list};
    ghost use Rattle.sqlite_value.specs.declared.value.Value.{Value as SqlValue};
    ghost use Rattle.sqlite_value.specs.contracts.value.Value.{the_row};

    ghost Value = { List SqlValue };

    ghost coded = { coded_list the_row.coded };

    ghost use Rattle.mmemory.specs.Packed.{row_of, IsCut};

    ghost view = { λ p. row_of p.form };

    ghost invariant = { λ p. IsCut p.form };
}

impl Packed {
    // The same row.
    pub(crate) fn of(alloc: Global, row: &Row) -> Result<Packed, AllocError>
        ensures { IfOk result (λ p. p ≡ row.now) }
    {
        if row.len() == 2 {
            if let (ValueRef::Blob(key), ValueRef::Int(id)) = (row.get(0), row.get(1)) {
                return Packed::entry(alloc, key, id);
            }
        }
        if row.len() == 3 {
            if let (ValueRef::Int(id), ValueRef::Blob(key), ValueRef::Blob(text)) = (
                row.get(0),
                row.get(1),
                row.get(2),
            ) {
                return Packed::node(alloc, id, key, text);
            }
        }
        Packed::other(alloc, row)
    }

    fn entry(alloc: Global, key: &[u8], id: i64) -> Result<Packed, AllocError>
        ensures { IfOk result (λ p. p ≡ SqlValue.Blob key.now ∷ SqlValue.Int id ∷ []) }
    {
        let bytes = Vec::from_slice(alloc, key)?;
        Ok(Packed {
            form: Form::Entry(bytes, id),
        })
    }

    // Blobs of 4 GiB count as out of memory.
    fn node(alloc: Global, id: i64, key: &[u8], text: &[u8]) -> Result<Packed, AllocError>
        ensures { IfOk result (λ p. p ≡ SqlValue.Int id ∷ SqlValue.Blob key.now ∷ SqlValue.Blob text.now ∷ []) }
    {
        let cut = u32::try_from(key.len()).map_err(|_| AllocError)?;
        let len = key.len().checked_add(text.len()).ok_or(AllocError)?;
        let mut bytes = Vec::with_capacity(alloc, len)?;
        bytes.extend_from_slice(key)?;
        bytes.extend_from_slice(text)?;
        Ok(Packed {
            form: Form::Node(cut, id, bytes),
        })
    }

    fn other(alloc: Global, row: &Row) -> Result<Packed, AllocError>
        ensures { IfOk result (λ p. p ≡ row.now) }
    {
        let copy = row.copy(alloc)?;
        let boxed = Box::new(alloc, copy).map_err(|_| AllocError)?;
        Ok(Packed {
            form: Form::Other(boxed),
        })
    }

    fn len(&self) -> usize
        ensures { result ≡ length self.now }
    {
        match &self.form {
            Form::Entry(..) => 2,
            Form::Node(..) => 3,
            Form::Other(row) => row.len(),
        }
    }

    /// The value in a column, and NULL past the end.
    #[inline(always)]
    pub(crate) fn get(&self, at: usize) -> ValueRef<'_>
        ensures { owned result ≡ column self.now at }
    {
        match &self.form {
            Form::Entry(bytes, id) => match at {
                0 => ValueRef::Blob(bytes.as_slice()),
                1 => ValueRef::Int(*id),
                _ => ValueRef::Null,
            },
            Form::Node(cut, id, bytes) => match at {
                0 => ValueRef::Int(*id),
                1 => ValueRef::Blob(&bytes[..*cut as usize]),
                2 => ValueRef::Blob(&bytes[*cut as usize..]),
                _ => ValueRef::Null,
            },
            Form::Other(row) => row.get(at),
        }
    }

    // The row in place of another.
    pub(crate) fn copy_to(&self, row: &mut Row) -> Result<(), AllocError>
        ensures { OnOk result (row.new ≡ self.now) }
    {
        match &self.form {
            Form::Entry(bytes, id) => {
                row.clear();
                row.push(ValueRef::Blob(bytes.as_slice()))?;
                row.push(ValueRef::Int(*id))
            }
            Form::Node(cut, id, bytes) => {
                row.clear();
                row.push(ValueRef::Int(*id))?;
                row.push(ValueRef::Blob(&bytes[..*cut as usize]))?;
                row.push(ValueRef::Blob(&bytes[*cut as usize..]))
            }
            Form::Other(it) => row.copy_from(it),
        }
    }

    // The order of a tree's entries: column by column, and a row before what extends it.
    pub(crate) fn cmp_entry(&self, mut order: Order, other: &Row) -> Ordering
        ensures { result ≡ entry_cmp order self.now other.now }
    {
        let both = self.len().min(other.len());
        for at in 0..both {
            match order.compare_first(self.get(at), other.get(at)) {
                Ordering::Equal => {}
                found => return found,
            }
            order = order.later();
        }
        self.len().cmp(&other.len())
    }

    // The same over the columns that the key has.
    pub(crate) fn cmp_prefix(&self, mut order: Order, key: &Row) -> Ordering
        ensures { result ≡ prefix_cmp order self.now key.now }
    {
        for at in 0..key.len() {
            if at >= self.len() {
                return Ordering::Less;
            }
            match order.compare_first(self.get(at), key.get(at)) {
                Ordering::Equal => {}
                found => return found,
            }
            order = order.later();
        }
        Ordering::Equal
    }
}
