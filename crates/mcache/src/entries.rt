// SPDX-License-Identifier: Apache-2.0
// Texts of nodes by the bytes of their keys, the most recently used first.
ghost use Rattle.std.specs.Prelude.{◌≡◌, ◌≢◌, true, false, nat_eq, IfOk, IfSome};
ghost use Rattle.std.specs.List.{Contains, starts_with};
ghost use Rattle.mcache.specs.NodeTexts.{Entry, IsAt, IsKeptAt, AreKeysOf, IsIn, IsInOr};

use lru::LruCache;
use mnum::Bytes7;
use std::alloc::{AllocError, Global};

pub(crate) type Entries = LruCache<Vec<u8>, Bytes7>;

// A copy of the text that is kept at a key, if there is one, and memory for it.
pub(crate) fn find(entries: &mut Entries, key: &[u8]) -> Option<Bytes7>
    ensures found { IfSome result (IsKeptAt entries.old.entries key.now) }
    ensures kept { IsIn entries.new.entries entries.old.entries }
    ensures cap { entries.new.cap ≡ entries.old.cap }
{
    match entries.get(key) {
        Some(text) => text.copy().ok(),
        None => None,
    }
}

// Keeps the text of a key that is not kept, if there is memory for it.
pub(crate) fn keep(alloc: Global, entries: &mut Entries, key: &[u8], text: &Bytes7)
    ensures kept { IsInOr entries.new.entries entries.old.entries key.now text.now }
    ensures cap { entries.new.cap ≡ entries.old.cap }
{
    let Ok(key) = key.to_vec(alloc) else {
        return;
    };
    let Ok(text) = text.copy() else {
        return;
    };
    drop(entries.put(key, text));
}

// The same, if the text is wanted.
pub(crate) fn keep_if(wanted: bool, alloc: Global, entries: &mut Entries, key: &[u8], text: &Bytes7)
    ensures kept { IsInOr entries.new.entries entries.old.entries key.now text.now }
    ensures cap { entries.new.cap ≡ entries.old.cap }
{
    if wanted {
        keep(alloc, entries, key, text);
    }
}

// Drops what is kept at a key.
pub(crate) fn forget(entries: &mut Entries, key: &[u8])
    ensures kept { IsIn entries.new.entries entries.old.entries }
    ensures gone { (e : Entry) → Contains entries.new.entries e → e.0.items ≢ key.now }
    ensures cap { entries.new.cap ≡ entries.old.cap }
{
    if entries.len() == 0 {
        return;
    }
    drop(entries.pop(key));
}

// Whether the bytes begin with these. Kept keys are often alike but for their ends, and those of whole numbers end in two bytes that are 0, so
// the byte before these is compared first.
fn begin_with(bytes: &[u8], front: &[u8]) -> bool
    ensures { result ≡ starts_with nat_eq bytes.now front.now }
{
    if front.len() < 3 || bytes.len() < front.len() {
        return bytes.starts_with(front);
    }
    let place = front.len() - 3;
    bytes[place] == front[place] && bytes.starts_with(front)
}

// The keys that begin with this one.
fn keys_below(alloc: Global, entries: &Entries, key: &[u8]) -> Result<Vec<Vec<u8>>, AllocError>
    ensures { IfOk result (λ keys. AreKeysOf entries.now.entries key.now keys.items) }
{
    let mut keys = Vec::new(alloc);
    for (bytes, _) in entries.iter() {
        if begin_with(bytes, key) {
            keys.push(bytes.to_vec(alloc)?)?;
        }
    }
    Ok(keys)
}

// Drops what is kept at the keys that begin with this one; without memory to note these, drops all that is kept.
pub(crate) fn forget_below(alloc: Global, entries: &mut Entries, key: &[u8])
    ensures kept { IsIn entries.new.entries entries.old.entries }
    ensures gone { (e : Entry) → Contains entries.new.entries e → starts_with nat_eq e.0.items key.now ≡ false }
    ensures cap { entries.new.cap ≡ entries.old.cap }
{
    let Ok(keys) = keys_below(alloc, entries, key) else {
        entries.clear();
        return;
    };
    for bytes in &keys {
        forget(entries, bytes);
    }
}
