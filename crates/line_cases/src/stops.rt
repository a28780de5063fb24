// SPDX-License-Identifier: Apache-2.0
// Lines over a table in two files in memory, one of which stops after a number of calls.
use crate::failing::{ENTRIES, world_over};
use crate::holding::held;
use crate::lines::{Lines, Stream, answer_of, lines_of};
use mnodes::{Failing, NodeStore, Plain, StoreCall};
use mstore::Table;
use mtranscript::print_result;
use mworld::World;
use sqlite::{Alter, Connection, FileStore, Files, Options};
use sqlite_disk::{Crash, Disk, Fuse, Memory};
use std::alloc::Global;

// A database's file and its log. Each passes on a number of calls, and then none.
type Stopping = Files<Fuse<Memory>>;

type StoppingTable = Table<FileStore<Fuse<Memory>>>;

// More calls than the lines make of a file.
const MOST: u64 = 10_000;

// What a run may leave: how many lines were answered without ZSTORE, and what a store holds then, or after some writes of the next line.
type Left = (usize, Vec<u8>);

/// Serves the lines by the settings of the document over a table in two files, and closes it; and again for each call of either file, which
/// stops at that call. For each file it prints how many stops there were, and how many of them lost anything. A stop lost something if the
/// files, with what was written since they were synced or without it, then hold something other than the writes of the lines that were
/// answered without ZSTORE, followed by some first writes of the line that was answered with it.
///
/// # Errors
///
/// If the document gives no settings, if there is no stop, or if memory runs out.
pub fn play_stops(alloc: Global, block: &Lines, out: &mut Vec<u8>) -> anyhow::Result<()> {
    let lines = lines_of(alloc, block.cases, out)?;
    let stream = Stream {
        document: block.document,
        lines: lines.as_slice(),
    };
    let allowed = all_left(alloc, &stream)?;
    for in_log in [true, false] {
        let (stops, lost) = count(alloc, &stream, &allowed, in_log)?;
        let file = if in_log { "log" } else { "database" };
        if stops == 0 {
            anyhow::bail!("no stop");
        }
        let told = format!(in alloc; "{file}: {stops} stops, {lost} lost anything")?;
        print_result(out, told.as_bytes())?;
    }
    Ok(())
}

// All that a run may leave.
fn all_left(alloc: Global, stream: &Stream) -> anyhow::Result<Vec<Left>> {
    let mut left = Vec::new(alloc);
    for count in 0..=stream.lines.len() {
        let first = Stream {
            document: stream.document,
            lines: &stream.lines[..count],
        };
        let run = plain_left(alloc, &first, StoreCall::Get, u32::MAX)?;
        if count > 0 {
            // a line may have made all its writes and been answered with ZSTORE
            left.push((count - 1, run.1.to_vec(alloc)?))?;
        }
        left.push(run)?;
    }
    for call in [StoreCall::Put, StoreCall::Kill] {
        push_cut(alloc, stream, call, &mut left)?;
    }
    Ok(left)
}

// Adds what is left if a write of this kind is refused, for each such write.
fn push_cut(
    alloc: Global,
    stream: &Stream,
    call: StoreCall,
    left: &mut Vec<Left>,
) -> anyhow::Result<()> {
    for n in 1..1000 {
        let run = plain_left(alloc, stream, call, n)?;
        if run.0 == stream.lines.len() {
            return Ok(());
        }
        left.push(run)?;
    }
    anyhow::bail!("writes without end")
}

// What the lines leave in the plain store, a call of which fails.
fn plain_left(alloc: Global, stream: &Stream, call: StoreCall, n: u32) -> anyhow::Result<Left> {
    if n == 0 {
        anyhow::bail!("calls are counted from 1");
    }
    let store = Failing::new(Plain::new(alloc), call, n);
    let (answered, mut store) = served_over(alloc, stream, store)?;
    let holds = held(alloc, &mut store)?;
    Ok((answered, holds))
}

// Serves the lines over a store, up to the first that ends by ZSTORE: how many come before it, and the store.
fn served_over<S: NodeStore + Drop>(
    alloc: Global,
    stream: &Stream,
    store: S,
) -> anyhow::Result<(usize, S)> {
    let mut world = world_over(alloc, stream.document, ENTRIES, store)?;
    let answered = answered(alloc, &mut world, stream.lines);
    let store = world.into_store().into_store().into_store();
    Ok((answered?, store))
}

// Serves the lines up to the first that ends by ZSTORE, and returns how many come before it.
fn answered<S: NodeStore>(
    alloc: Global,
    world: &mut World<S>,
    lines: &[Vec<u8>],
) -> anyhow::Result<usize> {
    let mut count = 0usize;
    for line in lines {
        if answer_of(alloc, world, line)?.ends_with(b"!ZSTORE\n") {
            break;
        }
        count = count.saturating_add(1);
    }
    Ok(count)
}

// How many stops of a file there are, and how many of them lose anything. A file with just as many calls as are made of it never stops.
fn count(
    alloc: Global,
    stream: &Stream,
    allowed: &[Left],
    in_log: bool,
) -> anyhow::Result<(u64, u64)> {
    let mut lost = 0u64;
    for calls in 0..MOST {
        let (log, db) = if in_log {
            (calls, u64::MAX)
        } else {
            (u64::MAX, calls)
        };
        let (answered, mut files) = stopped(alloc, stream, log, db)?;
        if !is_stopped(if in_log {
            &mut files.log
        } else {
            &mut files.db
        }) {
            return Ok((calls.saturating_sub(1), lost));
        }
        let loses = has_lost(alloc, files, allowed, answered)?;
        lost = lost.saturating_add(loses as u64);
    }
    anyhow::bail!("calls without end")
}

// Whether no further call of a file is passed on.
fn is_stopped(file: &mut Fuse<Memory>) -> bool {
    if !file.may_be_used() {
        return true;
    }
    file.len().is_err()
}

// Serves the lines over two files that stop after this many calls each: how many are answered without ZSTORE, and the files then.
fn stopped(alloc: Global, stream: &Stream, log: u64, db: u64) -> anyhow::Result<(usize, Stopping)> {
    let files = Files {
        log: Fuse::new(Memory::new(alloc), log),
        db: Fuse::new(Memory::new(alloc), db),
    };
    match table_over(alloc, files) {
        Ok(table) => closed_over(alloc, stream, table),
        Err(files) => Ok((0, files)),
    }
}

// Few pages are kept, since each run takes memory for them again; and the log is copied into the database while the lines run.
fn options() -> Options {
    let mut options = Options::new(7);
    options.cache_pages = 16;
    options.checkpoint_frames = 8;
    options
}

// A table over two files, or these, if none is opened.
fn table_over(alloc: Global, files: Stopping) -> Result<StoppingTable, Stopping> {
    if !files.may_be_used() {
        return Err(files);
    }
    let conn = match Connection::open_files(alloc, files, options()) {
        Ok(conn) => conn,
        Err((_, left)) => return Err(left.into_files()),
    };
    match adopted(alloc, conn) {
        Ok(table) => Ok(table),
        Err(store) => Err(store.close()),
    }
}

// A table over a connection, or its store, if it is not taken.
fn adopted<S: Alter + Drop>(alloc: Global, conn: Connection<S>) -> Result<Table<S>, S> {
    match Table::adopt(alloc, conn) {
        Ok(table) => Ok(table),
        Err((_, conn)) => Err(conn.into_store()),
    }
}

// Serves the lines over a table, and closes it, unless one ends by ZSTORE.
fn closed_over(
    alloc: Global,
    stream: &Stream,
    table: StoppingTable,
) -> anyhow::Result<(usize, Stopping)> {
    let (answered, conn) = served_by(alloc, stream, table)?;
    let files = left_by(conn, answered == stream.lines.len());
    Ok((answered, files))
}

// Serves the lines over a table, and gives its connection.
fn served_by<S: Alter + Drop>(
    alloc: Global,
    stream: &Stream,
    table: Table<S>,
) -> anyhow::Result<(usize, Connection<S>)> {
    let (answered, table) = served_over(alloc, stream, table)?;
    Ok((answered, table.into_connection()))
}

// The files of a connection, closed or as they are.
fn left_by(conn: Connection<FileStore<Fuse<Memory>>>, closing: bool) -> Stopping {
    if !closing {
        return conn.into_store().close();
    }
    match conn.close_files() {
        Ok(files) => files,
        Err((_, store)) => store.close(),
    }
}

// Whether two files hold something that no such run may leave, with all that was written, or without what was not synced.
fn has_lost(
    alloc: Global,
    mut files: Stopping,
    allowed: &[Left],
    answered: usize,
) -> anyhow::Result<bool> {
    let written = Files {
        log: copy(alloc, &files.log)?,
        db: copy(alloc, &files.db)?,
    };
    files.log.crash();
    files.db.crash();
    let all_synced = is_same(&written.log, &files.log) && is_same(&written.db, &files.db);
    let kept = is_left(alloc, written, allowed, answered)?;
    if all_synced {
        return Ok(!kept);
    }
    Ok(!kept || !is_left(alloc, files, allowed, answered)?)
}

fn is_same(file: &Fuse<Memory>, other: &Fuse<Memory>) -> bool {
    file.inner().bytes() == other.inner().bytes()
}

// A file that does not stop, with the bytes of another.
fn copy(alloc: Global, file: &Fuse<Memory>) -> anyhow::Result<Fuse<Memory>> {
    let mut memory = Memory::new(alloc);
    memory.write_at(0, file.inner().bytes())?;
    Ok(Fuse::new(memory, u64::MAX))
}

// Whether the files are opened, and hold what may be left after `answered` lines.
fn is_left(
    alloc: Global,
    files: Stopping,
    allowed: &[Left],
    answered: usize,
) -> anyhow::Result<bool> {
    let Ok(table) = table_over(alloc, files) else {
        return Ok(false);
    };
    let holds = held_by(alloc, table)?;
    for left in allowed {
        if left.0 == answered && left.1.as_slice() == holds.as_slice() {
            return Ok(true);
        }
    }
    Ok(false)
}

// All that a table holds.
fn held_by<S: Alter + Drop>(alloc: Global, mut table: Table<S>) -> anyhow::Result<Vec<u8>> {
    held(alloc, &mut table)
}
