// SPDX-License-Identifier: Apache-2.0
// What is left of a program after the call of a function.
ghost use Rattle.std.specs.Prelude.{◌≡◌, is_some, true};
ghost use Rattle.mexec.specs.Wholes.{whole_of};

use crate::holder::Holder;
use mcommand::Item;
use meval::Depth;

// What is left of a program after the call of a function: how deep that was, its steps from one on, and its stack, which the function's value
// goes on top of.
#[derive(Drop)]
pub(crate) struct Suspended {
    pub(crate) holder: Holder,
    pub(crate) depth: Depth,
    pub(crate) at: usize,
    pub(crate) items: Vec<Item>,
    ghost there: { is_some (whole_of holder) ≡ true },
}
