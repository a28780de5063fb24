// SPDX-License-Identifier: Apache-2.0
// Where a program stands, as a frame holds it.
use crate::frames::{Continuation, IndirectArguments};
use std::rc::Rc;

// Where a program stands: at one of the arguments of the command before the rest of a line, or of those that a text gave; at the condition of
// the command before the rest of a line; or at one of the parameters of the FOR before it.
#[derive(Drop)]
pub(crate) enum Holder {
    Line(Continuation, usize),
    Text(Rc<IndirectArguments>, usize),
    Condition(Continuation),
    Parameter(Continuation, usize),
}
