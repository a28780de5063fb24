// SPDX-License-Identifier: Apache-2.0
// A value at hand while more of the text is read. If that fails, the value is dropped here. A caller that drops a tree at an exit
// of its own has a goal there for each part of each variant of it, at every such exit.
ghost use Rattle.std.specs.Prelude.{◌≡◌, IfOk, IfErr, Ok, Err};

use mscan::ParseFault;

// The value, and what was read after it.
#[inline]
pub fn beside<T: Drop, U: Drop>(value: T, next: Result<U, ParseFault>) -> Result<(T, U), ParseFault>
    ensures value { IfOk result (λ x. (x.0 ≡ value) × (next ≡ Ok x.1)) }
    ensures fault { IfErr result (λ e. next ≡ Err e) }
{
    let next = next?;
    Ok((value, next))
}
