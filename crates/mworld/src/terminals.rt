// SPDX-License-Identifier: Apache-2.0
// What terminals have from line to line: sessions and locks.
ghost use Rattle.std.specs.Prelude.{◌≡◌, Some, None, OnOk, OnErr};
ghost use Rattle.std.specs.FinMap.{get, remove};
ghost use Rattle.mspec.specs.LockConflict.{released};
ghost use Rattle.mmeaning.specs.Transition.{session_or_new};
ghost use Rattle.mworld.specs.View.{sessions_of};

use meval::Session;
use mlock::Locks;
use std::alloc::{AllocError, Global};
use std::collections::HashMap;

// Makes a session for a terminal that has none.
pub(crate) fn begin_session(
    alloc: Global,
    sessions: &mut HashMap<u32, Session>,
    terminal: u32,
) -> Result<(), AllocError>
    ensures session { OnOk result (get (sessions_of sessions.new) terminal ≡ Some (session_or_new (get (sessions_of sessions.old) terminal))) }
    ensures others { remove (sessions_of sessions.new) terminal ≡ remove (sessions_of sessions.old) terminal }
    ensures none { OnErr result (sessions_of sessions.new ≡ remove (sessions_of sessions.old) terminal) }
{
    if sessions.contains_key(&terminal) {
        return Ok(());
    }
    put_session(alloc, sessions, terminal)
}

// Adds a new session if there is none. Kept out of line, so that a line of a terminal that has one does not pay for its stack frame.
#[cold]
#[inline(never)]
fn put_session(
    alloc: Global,
    sessions: &mut HashMap<u32, Session>,
    terminal: u32,
) -> Result<(), AllocError>
    requires { get (sessions_of sessions.old) terminal ≡ None }
    ensures session { OnOk result (get (sessions_of sessions.new) terminal ≡ Some (session_or_new (get (sessions_of sessions.old) terminal))) }
    ensures others { remove (sessions_of sessions.new) terminal ≡ remove (sessions_of sessions.old) terminal }
    ensures none { OnErr result (sessions_of sessions.new ≡ remove (sessions_of sessions.old) terminal) }
{
    sessions.insert(terminal, Session::new(alloc))?;
    Ok(())
}

// Takes away what a terminal has: its session and its locks.
pub(crate) fn end_session(sessions: &mut HashMap<u32, Session>, locks: &mut Locks, terminal: u32)
    ensures session { sessions_of sessions.new ≡ remove (sessions_of sessions.old) terminal }
    ensures locks { locks.new ≡ released locks.old terminal }
{
    let _ = sessions.remove(&terminal);
    locks.release_all(terminal);
}
