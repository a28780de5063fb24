// SPDX-License-Identifier: Apache-2.0
// The cases of a block, one after another.
use crate::printing::{print_case, print_result};

/// Prints each case, and below each, unless it is a comment, what the call adds for it.
///
/// # Errors
///
/// What the call fails with, and out of memory.
pub fn play<F: FnMut(&str, &mut Vec<u8>) -> anyhow::Result<()>>(
    cases: &[&str],
    out: &mut Vec<u8>,
    mut call: F,
) -> anyhow::Result<()>
    requires { F.IsAlwaysCallable call }
{
    for case in cases {
        if print_case(out, case)? {
            call(case, out)?;
        }
    }
    Ok(())
}

/// As [`play`], for a call that gives one result for each case, which is printed.
///
/// # Errors
///
/// What the call fails with, and out of memory.
pub fn play_each<F: Fn(&str) -> anyhow::Result<Vec<u8>>>(
    cases: &[&str],
    out: &mut Vec<u8>,
    given: F,
) -> anyhow::Result<()>
    requires { F.IsAlwaysCallable given }
{
    play(cases, out, |case, out| print_result(out, &given(case)?))
}
