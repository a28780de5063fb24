// SPDX-License-Identifier: Apache-2.0
// What a terminal keeps from line to line.
ghost use Rattle.std.specs.Prelude.{◌≡◌};
ghost use Rattle.mmeaning.specs.Transition.{new_session};
ghost use Rattle.meval.specs.Sessions.{session_of};

use crate::cursor::Cursor;
use crate::global_node::GlobalNode;
use mlocal::Locals;
use std::alloc::Global;

/// What a terminal keeps from line to line. Contracts see it by `session_of`, as the session of the definitions.
pub struct Session {
    /// The local variables.
    pub locals: Locals,
    /// The naked indicator: the node that was referred to last.
    pub naked: Option<GlobalNode>,
    /// `$TEST`.
    pub test: bool,
    /// Where its output is: `$X` and `$Y`.
    pub cursor: Cursor,
}

// Written out, so that dropping it is one call, which is proved once.
impl Drop for Session {
    fn drop(self) {
        let Session {
            locals: _,
            naked: _,
            test: _,
            cursor: _,
        } = self;
    }
}

impl Session {
    /// The session of a terminal that has none: no local variable, no naked indicator, 0 as `$TEST`, and the output at its beginning. Takes no memory.
    pub fn new(alloc: Global) -> Session
        ensures { session_of result ≡ new_session }
    {
        Session {
            locals: Locals::new(alloc),
            naked: None,
            test: false,
            cursor: Cursor::home(),
        }
    }
}
