// SPDX-License-Identifier: Apache-2.0
// The languages that there are.
ghost use Rattle.std.specs.Prelude.{◌≤◌};

// A language, 0 or 1.
#[derive(Clone, Copy)]
pub(crate) struct Language {
    pub number: u32,
    ghost known: { number ≤ 1 },
}
