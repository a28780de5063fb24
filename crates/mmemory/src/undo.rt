// SPDX-License-Identifier: Apache-2.0
// What takes back a change of the trees.
use crate::step::Step;
use crate::tree::Tree;

#[derive(Drop)]
pub(crate) enum Undo {
    Step(usize, Step),
    /// Another tree in place of one.
    Put(usize, Box<Tree>),
    /// That many trees, and no more.
    Shorten(usize),
    Version(u32),
}
