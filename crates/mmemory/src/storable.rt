// SPDX-License-Identifier: Apache-2.0
// Whether a row may be stored.
ghost use Rattle.std.specs.Prelude.{◌≡◌, ◌↔◌, ℕ, false, IsTrue, All};
ghost use Rattle.std.specs.Int.{bit_at};
ghost use Rattle.std.specs.Float.{NotNan};
ghost use Rattle.sqlite_value.specs.Value.{owned};
ghost use Rattle.sqlite_value.specs.Order.{column, number};
ghost use Rattle.sqlite_trees.specs.View.{is_int, IsTyped};

use sqlite_trees::typed::is_typed;
use sqlite_value::row::Row;
use sqlite_value::value::ValueRef;

const MAX_COLUMNS: usize = 2001;

fn is_number(value: ValueRef<'_>) -> bool
    ensures { IsTrue result ↔ NotNan (number (owned value.entry)) }
{
    match value {
        ValueRef::Real(x) => !x.is_nan(),
        _ => true,
    }
}

fn has_no_nan(row: &Row) -> bool
    ensures { IsTrue result ↔ All (λ v. NotNan (number v)) row.now }
{
    for at in 0..row.len() {
        if !is_number(row.get(at)) {
            return false;
        }
    }
    true
}

// A tree without a REAL column.
fn no_real(_row: &Row, reals: u64)
    requires { reals ≡ 0 }
    ensures { (c : ℕ) → bit_at reals c ≡ 1 → is_int (column _row.now c) ≡ false }
{}

// The same as `is_typed`, which goes over 64 columns, whether or not one is REAL.
pub(crate) fn is_storable(row: &Row, reals: u64) -> bool
    ensures { IsTrue result ↔ IsTyped reals row.now }
{
    if reals != 0 {
        return is_typed(row, reals);
    }
    no_real(row, reals);
    let fits = 0 < row.len() && row.len() <= MAX_COLUMNS;
    fits && has_no_nan(row)
}
