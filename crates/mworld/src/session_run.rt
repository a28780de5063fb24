// SPDX-License-Identifier: Apache-2.0
// A text, run over a session.
ghost use Rattle.std.specs.Prelude.{◌≡◌, ◌≢◌, [], IsTrue};
ghost use Rattle.moperator.specs.declared.code.Code.TheVariants.{Zstore};
ghost use Rattle.mworld.specs.Ran.{Ran};

use crate::reply::Reply;
use meval::{Depth, Eval, Session};
use mexec::{Ended, Parts, Scratch, run_text};
use mgrant::{AccountId, Settings};
use mlock::Locks;
use mnodes::NodeStore;
use moperator::Code;
use std::alloc::Global;
use std::mem::replace;

// The buffer for an output, which is empty.
fn taken(alloc: Global, room: &mut Vec<u8>) -> Vec<u8>
    ensures { result.items ≡ [] }
{
    let mut taken = replace(room, Vec::new(alloc));
    taken.clear();
    taken
}

// Runs a text of a terminal with the steps of its account, as a level of its own.
pub(crate) fn run_over<S: NodeStore>(
    alloc: Global,
    settings: &Settings,
    terminal: u32,
    account: AccountId,
    text: &[u8],
    session: &mut Session,
    store: &mut S,
    locks: &mut Locks,
    scratch: &mut Scratch,
    room: &mut Vec<u8>,
) -> Reply
    ensures ran { Ran S.NodeStore settings.now terminal account text.now session.old store.old locks.old result session.new store.new locks.new }
    ensures steady { S.steady → IsTrue (S.has_room store.new) → result.ending ≢ Ended.Fault Zstore }
{
    let mut out = taken(alloc, room);
    let Ok(()) = session.locals.enter() else {
        return Reply {
            out,
            ending: Ended::Fault(Code::Zmem),
        };
    };
    let steps = settings.steps_of(account);
    let mut parts = Parts {
        eval: Eval {
            session,
            store,
            settings,
            terminal,
            account,
            steps,
            depth: Depth {
                levels: 0,
                indirections: 0,
                wants_value: false,
            },
        },
        locks,
        out: &mut out,
    };
    let ending = run_text(alloc, &mut parts, scratch, text);
    Reply { out, ending }
}
