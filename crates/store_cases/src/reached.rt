// SPDX-License-Identifier: Apache-2.0
// Which calls of the store beneath each statement of a table reaches.
use crate::stores::call;
use crate::traced::{Call, Noted, Traced};
use anyhow::Context;
use mmemory::Memory;
use mstore::Table;
use mtranscript::{bytes_of, play, print_result};
use sqlite::{Alter, Connection};
use std::alloc::Global;
use std::cell::Cell;
use std::rc::Rc;

/// Plays calls one after another over one store in memory, and prints which calls of that store each of them makes, in their
/// order. The cases are `open`, which connects to the store; `run STATEMENT`, which changes what it holds; `adopt`, which takes the
/// connection as a table; and calls on the table.
///
/// # Errors
///
/// If a case is not such a call, if a store fails, or if memory runs out.
pub fn play_reached(alloc: Global, cases: &[&str], out: &mut Vec<u8>) -> anyhow::Result<()> {
    let calls = Rc::new(alloc, Cell::new(Vec::new(alloc)))?;
    let mut held = None;
    play(cases, out, |case, out| {
        let conn = match held.take() {
            None => opened(alloc, case, &calls)?,
            Some(conn) => reach(alloc, conn, case, &calls)?,
        };
        held = Some(conn);
        print_calls(alloc, out, &calls)
    })
}

type Reached = Connection<Traced<Memory>>;

// A connection to a store that holds nothing.
fn opened(alloc: Global, case: &str, calls: &Rc<Noted>) -> anyhow::Result<Reached> {
    if case != "open" {
        anyhow::bail!("no store is open");
    }
    let store = Traced::new(alloc, Memory::new(alloc), calls.clone()?);
    match Connection::over(alloc, store) {
        Ok(conn) => Ok(conn),
        Err(_) => anyhow::bail!("a store that is not taken"),
    }
}

// Carries out a case, and notes what it is to print.
fn reach<S: Alter + Drop>(
    alloc: Global,
    mut conn: Connection<S>,
    case: &str,
    calls: &Noted,
) -> anyhow::Result<Connection<S>> {
    if let Some(statement) = case.strip_prefix("run ") {
        let text = String::from_utf8(bytes_of(alloc, statement)?)
            .ok()
            .context("not text")?;
        conn.execute(text.as_str(), &[])?;
        return Ok(conn);
    }
    let Ok(mut table) = Table::adopt(alloc, conn) else {
        anyhow::bail!("a table that is not adopted");
    };
    if case != "adopt" {
        calls.set(Vec::new(alloc));
        call(&mut table, alloc, case)?;
    }
    Ok(table.into_connection())
}

// Prints the calls that were noted, those of each statement that changes the store on a line of their own; then none is noted.
fn print_calls(alloc: Global, out: &mut Vec<u8>, calls: &Noted) -> anyhow::Result<()> {
    let mut line = Vec::new(alloc);
    for call in calls.replace(Vec::new(alloc)).iter() {
        if matches!(call, Call::Savepoint) && !line.is_empty() {
            print_result(out, &line)?;
            line.clear();
        }
        if !line.is_empty() {
            line.push(b' ')?;
        }
        line.extend_from_slice(call.name().as_bytes())?;
    }
    print_result(out, &line)
}
