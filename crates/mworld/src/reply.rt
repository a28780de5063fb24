// SPDX-License-Identifier: Apache-2.0
// Events and replies.
ghost use Rattle.std.specs.Prelude.{◌≡◌, []};
ghost use Rattle.mmeaning.specs.Transition.{Faulted, is_failure};
ghost use Rattle.moperator.specs.Codes.{fault_of};
ghost use Rattle.mworld.specs.View.{reply_of};

use crate::world::loses_session;
use mexec::Ended;
use moperator::Code;
use std::alloc::Global;

/// A line of a terminal.
#[derive(Drop)]
pub struct Event {
    pub terminal: u32,
    /// The line's text, of any bytes.
    pub text: Vec<u8>,
}

/// What a line is answered.
#[derive(Drop)]
pub struct Reply {
    /// The line's output: ASCII, and the byte 255 for each end of a line.
    pub out: Vec<u8>,
    /// How the line ended.
    pub ending: Ended,
}

impl Reply {
    // Whether it says that memory or the store did not suffice for the line.
    pub(crate) fn is_failed(&self) -> bool
        ensures { result ≡ is_failure (reply_of self.now).ending }
    {
        match self.ending {
            Ended::Fault(code) => loses_session(code),
            _ => false,
        }
    }

    // The reply of a line that was not run, or whose run is lost.
    pub(crate) fn refused(alloc: Global, code: Code) -> Reply
        ensures { reply_of result ≡ record { out = []; ending = Faulted (fault_of code) } }
    {
        Reply {
            out: Vec::new(alloc),
            ending: Ended::Fault(code),
        }
    }
}
