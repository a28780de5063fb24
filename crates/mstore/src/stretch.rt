// SPDX-License-Identifier: Apache-2.0
// Rows that are read before they are asked for.
ghost use Rattle.std.specs.Prelude.{◌≡◌, ◌≢◌, ◌≤◌, ◌-◌, ◌||◌, false, true, if◌then◌else◌, length, nat_lt, option_copied, option_map};
ghost use Rattle.std.specs.Prelude.{slice_get, IfOk, IfSome, OnOk, Err, None, Some, ℕ, List};
ghost use Rattle.std.specs.Ordering.{is_eq, is_le, nat_cmp};
ghost use Rattle.std.specs.Cmp.Lexicographic.{slice_cmp};
ghost use Rattle.sqlite_value.specs.Order.{column};
ghost use Rattle.mnodes.specs.declared.store.StoreFault.TheVariants.{Store};
ghost use Rattle.mstore.specs.Map.{Content, ShowsBytes, in_bounds, is_below};
ghost use Rattle.mstore.specs.Rows.{IsValue};
ghost use Rattle.mstore.specs.Stretch.{AgreeBut, AgreeOutside, Agrees, AreInOrder, IsPlaceFor, IsStretch, ShowsFirst, after, blob_of, comes_before, end_of};
ghost use Rattle.mstore.specs.Stretch.{key_before, key_from, row_before, shown_key};

use mkey::compare;
use mnodes::StoreFault;
use mnum::Bytes7;
use mspec::limits::MAX_TEXT;
use sqlite::Row;
use sqlite_value::value::ValueRef;
use std::alloc::{AllocError, Global};

// How many rows one statement reads at most, and how many bytes they have at most if they are kept.
const MOST_ROWS: u32 = 32;

const MOST_BYTES: usize = 65_536;

// The rows of the table from `low` on and before `high`, as one statement showed them. It holds none if the bounds are empty.
#[derive(Drop)]
pub(crate) struct Stretch {
    rows: Vec<Row>,
    low: Vec<u8>,
    high: Vec<u8>,
    // How many rows the last statement was to read, and how many bytes they took.
    most: u32,
    bytes: usize,
    // How many calls the rows have answered.
    answers: usize,
    // How many of the next `next`s that have to read shall read one row each, since what was read ahead before them was of little use.
    pause: u32,
    last_pause: u32,
}

// The bytes in a column of a row.
fn column_of(row: &Row, at: usize) -> &[u8]
    ensures { result.now ≡ blob_of (column row.now at) }
{
    match row.get_ref(at) {
        Ok(ValueRef::Blob(bytes)) => bytes,
        _ => b"",
    }
}

// A copy of bytes.
fn copy_of(alloc: Global, bytes: &[u8]) -> Result<Vec<u8>, AllocError>
    ensures { IfOk result (λ copy. copy.items ≡ bytes.now) }
{
    let copy = bytes.to_vec(alloc)?;
    Ok(copy)
}

// Whether bytes come before others.
fn is_before(left: &[u8], right: &[u8]) -> bool
    ensures { result ≡ is_below left.now right.now }
{
    compare(left, right).is_lt()
}

// Whether bytes do not come after others.
fn is_up_to(left: &[u8], right: &[u8]) -> bool
    ensures { result ≡ is_le (slice_cmp nat_cmp left.now right.now) }
{
    compare(left, right).is_le()
}

// Whether a row has the key.
fn has_key(row: &Row, key: &[u8]) -> bool
    ensures { result ≡ is_eq (slice_cmp nat_cmp (shown_key row.now) key.now) }
{
    compare(column_of(row, 0), key).is_eq()
}

// How many keys come before these bytes.
fn place_of(rows: &[Row], bytes: &[u8]) -> usize
    ensures bound { result ≤ length rows.now }
    ensures place { AreInOrder rows.now → IsPlaceFor rows.now bytes.now result }
{
    rows.partition_point(
        |row: &Row| -> bool
            ensures { result ≡ comes_before bytes.entry.now row.now }
        { compare(column_of(row, 0), bytes).is_lt() },
    )
}

// The row at a place, if there is one.
fn row_at(rows: &[Row], place: usize) -> Option<&Row>
    ensures { option_copied result ≡ slice_get rows.now place }
{
    rows.get(place)
}

// The last row, if there is one.
fn last_of(rows: &[Row]) -> Option<&Row>
    ensures { option_copied result ≡ slice_get rows.now (length rows.now - 1) }
{
    rows.last()
}

// The row before a place, if there is one.
fn row_before(rows: &[Row], place: usize) -> Option<&Row>
    ensures { option_copied result ≡ row_before rows.now place }
{
    if place == 0 {
        return None;
    }
    rows.get(place - 1)
}

// The key of a row, if it does not come before these bytes.
fn key_from(alloc: Global, row: &Row, low: &[u8]) -> Result<Option<Vec<u8>>, AllocError>
    ensures { IfOk result (λ key. option_map (λ bytes. bytes.items) key ≡ key_from row.now low.now) }
{
    let key = column_of(row, 0);
    if is_before(key, low) {
        return Ok(None);
    }
    let bytes = copy_of(alloc, key)?;
    Ok(Some(bytes))
}

// The key of a row, if it comes before these bytes.
fn key_before(alloc: Global, row: &Row, high: &[u8]) -> Result<Option<Vec<u8>>, AllocError>
    ensures { IfOk result (λ key. option_map (λ bytes. bytes.items) key ≡ key_before row.now high.now) }
{
    let key = column_of(row, 0);
    if !is_before(key, high) {
        return Ok(None);
    }
    let bytes = copy_of(alloc, key)?;
    Ok(Some(bytes))
}

// How many bytes the keys and the texts of rows have.
fn size_of(rows: &[Row]) -> usize {
    let mut size = 0usize;
    for row in rows {
        let key = column_of(row, 0).len();
        let text = column_of(row, 1).len();
        size = size.saturating_add(key).saturating_add(text);
    }
    size
}

// The bytes as a text of a node.
fn text_of(alloc: Global, bytes: &[u8]) -> Result<Bytes7, StoreFault>
    ensures text { IfOk result (λ text. text ≡ bytes.now) }
    ensures told { IsValue bytes.now → result ≢ Err Store }
{
    if bytes.len() > MAX_TEXT {
        return Err(StoreFault::Store);
    }
    let copy = copy_of(alloc, bytes)?;
    match Bytes7::new(copy) {
        Ok(text) => Ok(text),
        Err(_) => Err(StoreFault::Store),
    }
}

// Whether there are fewer rows than were to be read.
fn are_fewer(rows: &[Row], most: u32) -> bool
    ensures { result ≡ nat_lt (length rows.now) most }
{
    rows.len() < most as usize
}

// Up to where the rows are all that there are: to the end of the range, or up to the last key, if as many were read as were to be.
fn end_of(alloc: Global, rows: &[Row], high: &[u8], most: u32) -> Result<Vec<u8>, AllocError>
    ensures { IfOk result (λ end. end.items ≡ end_of rows.now high.now most) }
{
    if are_fewer(rows, most) {
        let all = copy_of(alloc, high)?;
        return Ok(all);
    }
    let Some(row) = last_of(rows) else {
        return Ok(Vec::new(alloc));
    };
    let mut end = copy_of(alloc, column_of(row, 0))?;
    end.push(0)?;
    Ok(end)
}

impl Stretch {
    // No row, so that each call reads.
    pub(crate) fn new(alloc: Global) -> Stretch
        ensures { (m : Content) → Agrees m result }
    {
        let rows = Vec::new(alloc);
        let low = Vec::new(alloc);
        let high = Vec::new(alloc);
        Stretch {
            rows,
            low,
            high,
            most: 0,
            bytes: 0,
            answers: 0,
            pause: 0,
            last_pause: 0,
        }
    }

    // A call was answered.
    pub(crate) fn serve(&mut self)
        ensures { (m : Content) → Agrees m self.old → Agrees m self.new }
    {
        self.answers = self.answers.saturating_add(1);
    }

    // After a fault nothing is known.
    pub(crate) fn settle(&mut self, is_done: bool)
        ensures kept { (m : Content) → Agrees m self.old → Agrees m self.new }
        ensures failed { is_done ≡ false → (m : Content) → Agrees m self.new }
    {
        if !is_done {
            self.clear();
        }
    }

    // How many rows to read for a `next` that is not told here: twice as many as last time, up to those that fit. It is one after rows of
    // which less than half answered a call, and then stays one for a while, the longer the more often that was so.
    pub(crate) fn count(&mut self) -> u32
        ensures { (m : Content) → Agrees m self.old → Agrees m self.new }
    {
        self.judge();
        if self.pause > 0 {
            self.pause = self.pause.saturating_sub(1);
            self.clear();
            return 1;
        }
        self.most = self.most.saturating_mul(2).max(1).min(self.fitting());
        self.most
    }

    // Whether the rows that were read last were of use.
    fn judge(&mut self)
        ensures { (m : Content) → Agrees m self.old → Agrees m self.new }
    {
        let read = self.rows.len();
        if self.answers < read / 2 {
            self.most = 0;
            self.last_pause = self
                .last_pause
                .saturating_mul(2)
                .saturating_add(1)
                .min(MOST_ROWS);
            self.pause = self.last_pause;
        } else if read > 4 {
            self.last_pause = 0;
        }
    }

    // How many rows fit that are as long as those that were read last.
    fn fitting(&self) -> u32 {
        let each = self.bytes / self.rows.len().max(1);
        let fit = MOST_BYTES / each.max(1);
        if fit < MOST_ROWS as usize {
            (fit as u32).max(1)
        } else {
            MOST_ROWS
        }
    }

    // Holds no row any more.
    pub(crate) fn clear(&mut self)
        ensures { (m : Content) → Agrees m self.new }
    {
        self.rows.clear();
        self.low.clear();
        self.high.clear();
        self.bytes = 0;
        self.answers = 0;
    }

    // The first key of a range, if the rows tell it.
    pub(crate) fn first(
        &self,
        alloc: Global,
        low: &[u8],
        high: &[u8],
    ) -> Result<Option<Option<Vec<u8>>>, AllocError>
        ensures { (m : Content) → Agrees m self.now → IfOk result (λ told. IfSome told (λ key. ShowsBytes false m low.now high.now
            (option_map (λ bytes. bytes.items) key))) }
    {
        let begin = self.low.as_slice();
        if is_before(low, begin) {
            return Ok(None);
        }
        let rows = self.rows.as_slice();
        let place = place_of(rows, low);
        let Some(row) = row_at(rows, place) else {
            return Ok(self.none_before(high));
        };
        let key = key_before(alloc, row, high)?;
        Ok(Some(key))
    }

    // That no key is left before these bytes, if the stretch goes up to them.
    fn none_before(&self, high: &[u8]) -> Option<Option<Vec<u8>>>
        ensures { result ≡ (if is_below self.now.high.items high.now then None else Some None) }
    {
        let end = self.high.as_slice();
        if is_before(end, high) {
            return None;
        }
        Some(None)
    }

    // The last key of a range, if the rows tell it.
    pub(crate) fn last(
        &self,
        alloc: Global,
        low: &[u8],
        high: &[u8],
    ) -> Result<Option<Option<Vec<u8>>>, AllocError>
        ensures { (m : Content) → Agrees m self.now → IfOk result (λ told. IfSome told (λ key. ShowsBytes true m low.now high.now
            (option_map (λ bytes. bytes.items) key))) }
    {
        let end = self.high.as_slice();
        if is_before(end, high) {
            return Ok(None);
        }
        let rows = self.rows.as_slice();
        let place = place_of(rows, high);
        let Some(row) = row_before(rows, place) else {
            return Ok(self.none_from(low));
        };
        if self.begins_after(row) {
            return Ok(self.none_from(low));
        }
        let key = key_from(alloc, row, low)?;
        Ok(Some(key))
    }

    // Whether a row is one of those before its begin.
    fn begins_after(&self, row: &Row) -> bool
        ensures { result ≡ is_below (shown_key row.now) self.now.low.items }
    {
        is_before(column_of(row, 0), self.low.as_slice())
    }

    // That no key is left from these bytes on, if the stretch does not begin after them.
    fn none_from(&self, low: &[u8]) -> Option<Option<Vec<u8>>>
        ensures { result ≡ (if is_below low.now self.now.low.items then None else Some None) }
    {
        let begin = self.low.as_slice();
        if is_before(low, begin) {
            return None;
        }
        Some(None)
    }

    // The text at a key, if the rows tell it.
    pub(crate) fn text(
        &self,
        alloc: Global,
        key: &[u8],
    ) -> Result<Option<Option<Bytes7>>, StoreFault>
        ensures found { (m : Content) → Agrees m self.now → IfOk result (λ told. IfSome told (λ text. text ≡ m key.now)) }
        ensures told { (m : Content) → Agrees m self.now → ((k v : List ℕ) → m k ≡ Some v → IsValue v) → result ≢ Err Store }
    {
        if !self.holds(key) {
            return Ok(None);
        }
        let rows = self.rows.as_slice();
        let place = place_of(rows, key);
        let Some(row) = row_at(rows, place) else {
            return Ok(Some(None));
        };
        if !has_key(row, key) {
            return Ok(Some(None));
        }
        let text = text_of(alloc, column_of(row, 1))?;
        Ok(Some(Some(text)))
    }

    // Sets its begin to these bytes, or to what comes after them.
    fn set_begin(&mut self, low: &[u8], is_after: bool) -> Result<(), AllocError>
        ensures same { self.new ≡ record self.old { low = self.new.low } }
        ensures low { OnOk result (self.new.low.items ≡ (if is_after then after low.now else low.now)) }
    {
        self.low.clear();
        self.low.extend_from_slice(low)?;
        if is_after {
            self.low.push(0)?;
            return Ok(());
        }
        Ok(())
    }

    // Begins at these bytes, which are not before its first ones.
    fn begin_from(&mut self, low: &[u8])
        ensures { (m : Content) → IsStretch m low.now self.old.high.items self.old.rows.items → Agrees m self.new }
    {
        let set = self.set_begin(low, false);
        if set.is_ok() {
            return;
        }
        self.clear();
    }

    // Begins after this key, which is not before its first one.
    fn begin_after(&mut self, key: &[u8])
        ensures { (m : Content) → IsStretch m (after key.now) self.old.high.items self.old.rows.items → Agrees m self.new }
    {
        let set = self.set_begin(key, true);
        if set.is_ok() {
            return;
        }
        self.clear();
    }

    // Whether the key is within the bounds.
    fn holds(&self, key: &[u8]) -> bool
        ensures { result ≡ in_bounds self.now.low.items self.now.high.items key.now }
    {
        is_up_to(self.low.as_slice(), key) && is_before(key, self.high.as_slice())
    }

    // Whether a range is all before it or all after it.
    fn is_apart(&self, low: &[u8], high: &[u8]) -> bool
        ensures { result ≡ (is_le (slice_cmp nat_cmp self.now.high.items low.now) || is_le (slice_cmp nat_cmp high.now self.now.low.items)) }
    {
        is_up_to(self.high.as_slice(), low) || is_up_to(high, self.low.as_slice())
    }

    // Leaves out a key whose text changes, with what is before it.
    pub(crate) fn leave_out(&mut self, key: &[u8])
        ensures { (m next : Content) → Agrees m self.old → AgreeBut m next key.now → Agrees next self.new }
    {
        if !self.holds(key) {
            return;
        }
        self.begin_after(key);
    }

    // Leaves out a range that changes, with what is before it.
    pub(crate) fn leave_out_range(&mut self, low: &[u8], high: &[u8])
        ensures { (m next : Content) → Agrees m self.old → AgreeOutside m next low.now high.now → Agrees next self.new }
    {
        if self.is_apart(low, high) {
            return;
        }
        self.begin_from(high);
    }

    // Takes the rows that a statement showed from `low` on and before `high`, of which it was to read `most`. Answers whether they are kept.
    pub(crate) fn take(
        &mut self,
        alloc: Global,
        rows: Vec<Row>,
        low: &[u8],
        high: &[u8],
        most: u32,
    ) -> bool
        ensures { (m : Content) → ShowsFirst m low.now high.now most rows.items → Agrees m self.new }
    {
        let bytes = size_of(rows.as_slice());
        if bytes > MOST_BYTES {
            self.clear();
            self.most = self.most / 4;
            return false;
        }
        let set = self.set(alloc, rows, low, high, most);
        if set.is_ok() {
            self.bytes = bytes;
            return true;
        }
        self.clear();
        false
    }

    // Sets rows and bounds.
    fn set(
        &mut self,
        alloc: Global,
        rows: Vec<Row>,
        low: &[u8],
        high: &[u8],
        most: u32,
    ) -> Result<(), AllocError>
        ensures { (m : Content) → ShowsFirst m low.now high.now most rows.items → OnOk result (Agrees m self.new) }
    {
        let end = end_of(alloc, rows.as_slice(), high, most)?;
        let begin = copy_of(alloc, low)?;
        self.low = begin;
        self.high = end;
        self.rows = rows;
        Ok(())
    }
}
