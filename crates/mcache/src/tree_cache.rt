// SPDX-License-Identifier: Apache-2.0
// Trees of one kind by their texts, the most recently used first.
ghost use Rattle.std.specs.Prelude.{◌≡◌, ◌+◌, ◌-◌, ◌≤◌, length, IfSome};
ghost use Rattle.mcache.specs.Kept.{IsKept, IsWithin, IsWithinOr};

use lru::LruCache;
use std::alloc::Global;
use std::rc::Rc;

pub(crate) type TreeCache<T> = LruCache<Vec<u8>, Rc<T>>;

// The tree of the text that was used last, as one more reference to it, if it is this text.
fn latest<T: Drop>(tree_cache: &TreeCache<T>, text: &[u8]) -> Option<Rc<T>>
    ensures { IfSome result (λ tree. IsKept tree_cache.now.entries text.now tree.value) }
{
    match tree_cache.peek_mru() {
        None => None,
        Some((key, tree)) => if key.as_slice() == text {
            tree.clone().ok()
        } else {
            None
        },
    }
}

// The tree of a text that is kept, as one more reference to it. The text that was used last is not hashed: loops run it again and again.
pub(crate) fn find<T: Drop>(tree_cache: &mut TreeCache<T>, text: &[u8]) -> Option<Rc<T>>
    ensures found { IfSome result (λ tree. IsKept tree_cache.old.entries text.now tree.value) }
    ensures within { IsWithin tree_cache.new.entries tree_cache.old.entries }
    ensures count { length tree_cache.new.entries ≤ length tree_cache.old.entries }
{
    if let Some(tree) = latest(tree_cache, text) {
        return Some(tree);
    }
    match tree_cache.get(text) {
        Some(tree) => tree.clone().ok(),
        None => None,
    }
}

// Drops the least recently used tree.
pub(crate) fn let_go<T: Drop>(tree_cache: &mut TreeCache<T>)
    ensures within { IsWithin tree_cache.new.entries tree_cache.old.entries }
    ensures count { length tree_cache.new.entries ≡ length tree_cache.old.entries - 1 }
{
    drop(tree_cache.pop_lru());
}

// Keeps the tree of a text, if there is memory for it.
pub(crate) fn keep<T: Drop>(alloc: Global, tree_cache: &mut TreeCache<T>, text: &[u8], tree: &Rc<T>)
    ensures within { IsWithinOr tree_cache.new.entries tree_cache.old.entries text.now tree.now.value }
    ensures count { length tree_cache.new.entries ≤ length tree_cache.old.entries + 1 }
{
    let Ok(text) = text.to_vec(alloc) else {
        return;
    };
    let Ok(tree) = tree.clone() else {
        return;
    };
    drop(tree_cache.put(text, tree));
}
