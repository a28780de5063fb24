// SPDX-License-Identifier: Apache-2.0
// A run of events, as an account sees it.
ghost use Rattle.std.specs.Prelude.{◌≡◌, List, ◌∷◌, [], ◌++◌, map, IfOk, IfErr, OnOk, IsTrue, ◌↔◌, false};
ghost use Rattle.mspec.specs.Access.{name_at};
ghost use Rattle.mspec.specs.Trees.{text_eq};
ghost use Rattle.mmeaning.specs.Transition as transition;
ghost use Rattle.mmeaning.specs.Transition.{Transition, is_failure};
ghost use Rattle.misolation.specs.Telling.{Tells};
ghost use Rattle.mnodes.specs.Doubt.{shut};
ghost use Rattle.mnodes.specs.Over.{DoubtsOver};
ghost use Rattle.mworld.specs.View.{settings_of, world_of, doubt_of, reply_of, event_of};
ghost use Rattle.mworld.specs.Isolated.{replies_of, IsTold, IsEquallyTold, IsToldEach, IsToldUntilShut, IsUnseen, RanFirst, RanUntilShut, TellsOne};
ghost use Rattle.mworld.specs.Promises.{IsUndoubted};
ghost use Rattle.mworld.specs.Sufficed.{StoreSufficedForTold};

use crate::reply::{Event, Reply};
use crate::world::World;
use mgrant::{AccountId, Settings};
use mnodes::NodeStore;
use std::alloc::{AllocError, Global};

/// A reply, and the terminal that it goes to.
pub struct Told {
    pub terminal: u32,
    pub reply: Reply,
}

// Written out, so that dropping it is one call, which is proved once.
impl Drop for Told {
    fn drop(self) {
        let Told {
            terminal: _,
            reply: _,
        } = self;
    }
}

/// What a run of events told an account.
pub struct Isolated {
    /// The replies at the account's terminals, in their order.
    pub replies: Vec<Told>,
    /// Whether no line of an account that reaches it was answered `Zmem` or `Zstore`.
    pub whole: bool,
}

// Written out, so that dropping it is one call, which is proved once.
impl Drop for Isolated {
    fn drop(self) {
        let Isolated {
            replies: _,
            whole: _,
        } = self;
    }
}

/// Runs the events in their order, and tells an account of the world's settings the replies at its terminals.
///
/// **The account learns nothing of the accounts that do not reach it.** An account reaches another if a chain of grants leads there; a
/// grant to write leads both ways. If no line of an account that reaches this one was answered `Zmem` or `Zstore`,
/// as `whole` says, the replies are those of the definitional interpreter run on the reaching accounts' lines, globals, sessions and
/// locks, and the grants between them, alone: whatever other accounts store, lock, run or exhaust. After such a line they are still
/// those of these lines alone, with the replies that they got here, in which that line failed. This holds from any world. If the run is
/// whole, the reaching accounts' own replies are those of that interpreter too. From a world that has globals alone it keeps the promise:
/// any other world that agrees on what reaches this account gives it the same replies.
///
/// All this is said if there is no doubt of the store after the run. If a fault shut it on the way, it is said of the events before the one
/// whose line shut it, and that line failed. Over any store they are replies to the account's events, one each and in their order; over a
/// steady store that has room at the end none of them says `Zstore`.
///
/// An id that names no account of the world's settings is shown nothing.
///
/// # Errors
///
/// Out of memory for what is shown. The world is then the one after some first events, one transition each.
pub fn isolated_replies<S: NodeStore>(
    alloc: Global,
    world: &mut World<S>,
    events: &[Event],
    account: AccountId,
) -> Result<Isolated, AllocError>
    ensures told { IsUndoubted S.NodeStore world.new → IfOk result (λ isolated. IsTold S.NodeStore world.old account (map event_of events.now)
        (replies_of isolated) isolated.whole world.new) }
    ensures alone { IsUndoubted S.NodeStore world.new → IfOk result (λ isolated. IsEquallyTold S.NodeStore world.old account (map event_of events.now)
        (replies_of isolated) isolated.whole) }
    ensures each { IfOk result (λ isolated. IsToldEach (name_at (settings_of world.old) account) (settings_of world.old) (map event_of events.now)
        (replies_of isolated)) }
    ensures first { IsUndoubted S.NodeStore world.new → IfErr result (λ _. RanFirst (settings_of world.old) (world_of S.NodeStore world.old)
        (map event_of events.now) (world_of S.NodeStore world.new)) }
    ensures settings { settings_of world.new ≡ settings_of world.old }
    ensures doubt { DoubtsOver S.NodeStore world.old.store world.new.store false }
    ensures sufficed { S.steady → IsTrue (S.has_room world.new.store) → IfOk result (λ isolated. StoreSufficedForTold (replies_of isolated)) }

    // A fault shut the store on the way.
    ensures told_until_shut { IsUndoubted S.NodeStore world.old → doubt_of S.NodeStore world.new ≡ shut → IfOk result (λ isolated.
        IsToldUntilShut (name_at (settings_of world.old) account) (settings_of world.old) (world_of S.NodeStore world.old) (map event_of events.now)
        (replies_of isolated) isolated.whole) }
    ensures first_until_shut { IsUndoubted S.NodeStore world.old → doubt_of S.NodeStore world.new ≡ shut → IfErr result (λ _.
        RanUntilShut (settings_of world.old) (world_of S.NodeStore world.old) (map event_of events.now)) }
{
    let mut isolated = Isolated {
        replies: Vec::new(alloc),
        whole: true,
    };
    for event in events {
        tell(alloc, world, event, account, &mut isolated)?;
    }
    Ok(isolated)
}

// Runs one event, and tells the account its reply where it is at one of its terminals.
fn tell<S: NodeStore>(
    alloc: Global,
    world: &mut World<S>,
    event: &Event,
    account: AccountId,
    isolated: &mut Isolated,
) -> Result<(), AllocError>
    ensures told { IsUndoubted S.NodeStore world.new → OnOk result ((first : transition.World) (events : List transition.Event) →
        Tells (name_at (settings_of world.old) account) (settings_of world.old) first events (replies_of isolated.old) isolated.old.whole
        (world_of S.NodeStore world.old) →
        Tells (name_at (settings_of world.old) account) (settings_of world.old) first (events ++ event_of event.now ∷ [])
        (replies_of isolated.new) isolated.new.whole (world_of S.NodeStore world.new)) }
    ensures each { OnOk result ((events : List transition.Event) →
        IsToldEach (name_at (settings_of world.old) account) (settings_of world.old) events (replies_of isolated.old) →
        IsToldEach (name_at (settings_of world.old) account) (settings_of world.old) (events ++ event_of event.now ∷ []) (replies_of isolated.new)) }
    ensures ran { (reply : transition.Reply) × (IsUndoubted S.NodeStore world.old → doubt_of S.NodeStore world.new ≡ shut → IsTrue (is_failure reply.ending))
        × OnOk result (TellsOne (name_at (settings_of world.old) account) (settings_of world.old) (event_of event.now) reply
        (replies_of isolated.old) isolated.old.whole (replies_of isolated.new) isolated.new.whole) }
    ensures transition { IsUndoubted S.NodeStore world.new → (reply : transition.Reply) × Transition (settings_of world.old) (event_of event.now) reply
        (world_of S.NodeStore world.old) (world_of S.NodeStore world.new) }
    ensures settings { settings_of world.new ≡ settings_of world.old }
    ensures doubt { DoubtsOver S.NodeStore world.old.store world.new.store false }
    ensures sufficed { S.steady → IsTrue (S.has_room world.new.store) → OnOk result (StoreSufficedForTold (replies_of isolated.old) → StoreSufficedForTold
        (replies_of isolated.new)) }
{
    let reply = world.line(event.terminal, &event.text);
    let Some(sender) = world.settings().account_of(event.terminal) else {
        world.reuse(reply);
        return Ok(());
    };
    isolated.whole = is_whole_behind(
        alloc,
        world.settings(),
        sender,
        account,
        &reply,
        isolated.whole,
    )?;
    if !is_same(world.settings(), account, sender) {
        world.reuse(reply);
        return Ok(());
    }
    isolated.replies.push(Told {
        terminal: event.terminal,
        reply,
    })?;
    Ok(())
}

// Whether a run is whole after a line with this reply that the sender sent, given whether it was whole before.
fn is_whole_behind(
    alloc: Global,
    settings: &Settings,
    sender: AccountId,
    account: AccountId,
    reply: &Reply,
    whole: bool,
) -> Result<bool, AllocError>
    ensures { IfOk result (λ more. IsTrue more ↔ (IsTrue whole × IsUnseen settings.now (name_at settings.now sender) (name_at settings.now account)
        (reply_of reply.now))) }
{
    if !reply.is_failed() {
        return Ok(whole);
    }
    if settings.reaches(alloc, sender, account)? {
        return Ok(false);
    }
    Ok(whole)
}

// Whether two places are of one account, by their names.
fn is_same(settings: &Settings, account: AccountId, other: AccountId) -> bool
    ensures { result ≡ text_eq (name_at settings.now account) (name_at settings.now other) }
{
    settings.name_of(account) == settings.name_of(other)
}
