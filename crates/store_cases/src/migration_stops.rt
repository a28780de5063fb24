// SPDX-License-Identifier: Apache-2.0
// Databases in two files in memory, one of which stops while the database is opened.
use anyhow::Context;
use mstore::Table;
use mtranscript::{bytes_of, play, print, print_result, print_results};
use sqlite::{Alter, Connection, FileStore, Files, Options};
use sqlite_disk::{Crash, Disk, Fuse, Memory};
use std::alloc::Global;

// More calls than a file is asked for while it is opened.
const MOST: u64 = 100_000;

// One of the two files.
#[derive(Clone, Copy)]
enum Part {
    Log,
    Database,
}

// What the stores that stops left were.
#[derive(Default, Drop)]
struct Left {
    old: bool,
    new: bool,
    other: bool,
}

impl Left {
    // Notes a store, by what it holds before and after it is opened again.
    fn note(&mut self, found: &[u8], opened: &[u8], old: &[u8], new: &[u8]) {
        self.old = self.old || found == old;
        self.new = self.new || found == new;
        self.other = self.other || (found != old && found != new) || opened != new;
    }

    fn told(&self) -> &str {
        match (self.old, self.new, self.other) {
            (true, true, false) => "the old store or the new one",
            (true, false, false) => "the old store",
            (false, true, false) => "the new store",
            _ => "ANOTHER STORE",
        }
    }
}

// How many stops of a file there were, and what they left, if all that was not synced is lost, and if nothing is.
#[derive(Drop)]
struct Stops {
    count: u64,
    lost: Left,
    kept: Left,
}

/// Makes a database in two files in memory by the statements of the cases. Prints the version, the keys and the texts that it
/// has once it was opened as a table. Then opens it again for each file, which stops after a number of calls: from none on, until
/// the table is opened. Prints of the stores that were found then whether they held what was there at first, or what the table
/// holds: once with all bytes lost that were not synced, and once with none lost.
///
/// # Errors
///
/// If a case is not a statement, if a store that does not stop fails, if there is no stop, or if memory runs out.
pub fn play_migration_stops(
    alloc: Global,
    cases: &[&str],
    out: &mut Vec<u8>,
) -> anyhow::Result<()> {
    play(cases, out, |_, _| Ok(()))?;
    let made = made(alloc, cases)?;
    let (log, db) = (made.log.bytes(), made.db.bytes());
    let (old, new) = reopened(alloc, copies(alloc, log, db)?)?;
    print_results(alloc, out, &new)?;
    for part in [Part::Log, Part::Database] {
        tell(
            alloc,
            part,
            &stop_each(alloc, log, db, part, &old, &new)?,
            out,
        )?;
    }
    Ok(())
}

// Prints what the stores that stops of a file left were.
fn tell(alloc: Global, part: Part, stops: &Stops, out: &mut Vec<u8>) -> anyhow::Result<()> {
    let file = match part {
        Part::Log => "log",
        Part::Database => "database",
    };
    if stops.count == 0 {
        anyhow::bail!("no stop");
    }
    let (count, lost, kept) = (stops.count, stops.lost.told(), stops.kept.told());
    let told = format!(in alloc;
        "{file}: {count} stops; unsynced bytes lost: {lost}; kept: {kept}"
    )?;
    print_result(out, told.as_bytes())
}

// Opens a database of these bytes, stopped after each count of calls of a file, and notes what is found after each stop.
fn stop_each(
    alloc: Global,
    log: &[u8],
    db: &[u8],
    part: Part,
    old: &[u8],
    new: &[u8],
) -> anyhow::Result<Stops> {
    let mut stops = Stops {
        count: 0,
        lost: Left::default(),
        kept: Left::default(),
    };
    for calls in 0..MOST {
        let (is_opened, files) = opened(alloc, copies(alloc, log, db)?, part, calls)?;
        let left = copies(alloc, files.log.inner().bytes(), files.db.inner().bytes())?;
        let (found, later) = reopened(alloc, left)?;
        stops.kept.note(&found, &later, old, new);
        let (found, later) = crashed(alloc, files)?;
        stops.lost.note(&found, &later, old, new);
        if is_opened {
            return Ok(stops);
        }
        stops.count = stops.count.saturating_add(1);
    }
    anyhow::bail!("more calls than were counted")
}

// A database made by the statements of the cases, closed.
fn made(alloc: Global, cases: &[&str]) -> anyhow::Result<Files<Memory>> {
    let files = Files {
        log: Memory::new(alloc),
        db: Memory::new(alloc),
    };
    let mut conn = connected(alloc, files, 1)?;
    for case in cases {
        run(alloc, &mut conn, case)?;
    }
    match conn.close_files() {
        Ok(files) => Ok(files),
        Err((_, store)) => {
            let _ = store.close();
            anyhow::bail!("not closed")
        }
    }
}

// A connection to two files that do not stop.
fn connected<D: Disk + Drop>(
    alloc: Global,
    files: Files<D>,
    seed: u64,
) -> anyhow::Result<Connection<FileStore<D>>> {
    if !files.may_be_used() {
        anyhow::bail!("not to be used");
    }
    match Connection::open_files(alloc, files, options(seed)) {
        Ok(conn) => Ok(conn),
        Err(_) => anyhow::bail!("not opened"),
    }
}

// Few pages are kept, since each open takes memory for them again.
fn options(seed: u64) -> Options {
    let mut options = Options::new(seed);
    options.cache_pages = 16;
    options
}

// Runs the statement of a case.
fn run<S: Alter>(alloc: Global, conn: &mut Connection<S>, case: &str) -> anyhow::Result<()> {
    if case.starts_with("# ") {
        return Ok(());
    }
    let text = String::from_utf8(bytes_of(alloc, case)?)
        .ok()
        .context("not text")?;
    conn.execute(text.as_str(), &[])?;
    Ok(())
}

// Opens a database as a table, of which a file stops after `calls` calls. Gives the files back with no further call, and returns whether
// the table was opened.
fn opened(
    alloc: Global,
    files: Files<Memory>,
    part: Part,
    calls: u64,
) -> anyhow::Result<(bool, Files<Fuse<Memory>>)> {
    let (log, db) = match part {
        Part::Log => (calls, u64::MAX),
        Part::Database => (u64::MAX, calls),
    };
    let files = Files {
        log: Fuse::new(files.log, log),
        db: Fuse::new(files.db, db),
    };
    if !files.may_be_used() {
        anyhow::bail!("not to be used");
    }
    match Connection::open_files(alloc, files, options(2)) {
        Err((_, left)) => Ok((false, left.into_files())),
        Ok(conn) => {
            let (is_opened, store) = adopted(alloc, conn);
            Ok((is_opened, store.close()))
        }
    }
}

// Whether a database is taken as a table, and its store then.
fn adopted<S: Alter + Drop>(alloc: Global, conn: Connection<S>) -> (bool, S) {
    match Table::adopt(alloc, conn) {
        Ok(table) => (true, table.into_connection().into_store()),
        Err((_, conn)) => (false, conn.into_store()),
    }
}

// Two files of these bytes, synced.
fn copies(alloc: Global, log: &[u8], db: &[u8]) -> anyhow::Result<Files<Memory>> {
    let log = copy(alloc, log)?;
    let db = copy(alloc, db)?;
    Ok(Files { log, db })
}

fn copy(alloc: Global, bytes: &[u8]) -> anyhow::Result<Memory> {
    let mut file = Memory::new(alloc);
    file.write_at(0, bytes)?;
    file.sync()?;
    Ok(file)
}

// What the files hold if all that was not synced is lost, before and after they are opened as a table.
fn crashed(alloc: Global, mut files: Files<Fuse<Memory>>) -> anyhow::Result<(Vec<u8>, Vec<u8>)> {
    files.log.crash();
    files.db.crash();
    reopened(alloc, files)
}

// What the files hold, before and after they are opened as a table.
fn reopened<D: Disk + Drop>(alloc: Global, files: Files<D>) -> anyhow::Result<(Vec<u8>, Vec<u8>)> {
    found(alloc, connected(alloc, files, 3)?)
}

// What a database holds, before and after it is opened as a table.
fn found<S: Alter + Drop>(
    alloc: Global,
    mut conn: Connection<S>,
) -> anyhow::Result<(Vec<u8>, Vec<u8>)> {
    let found = content(alloc, &mut conn)?;
    let Ok(table) = Table::adopt(alloc, conn) else {
        anyhow::bail!("not adopted again");
    };
    let mut conn = table.into_connection();
    let opened = content(alloc, &mut conn)?;
    Ok((found, opened))
}

// The version, and each key with its text, by the order of the keys.
fn content<S: Alter>(alloc: Global, conn: &mut Connection<S>) -> anyhow::Result<Vec<u8>> {
    let version = conn
        .query_row("SELECT n FROM meta WHERE name = 'version'", &[])?
        .get::<i64>(0)?;
    let mut held = Vec::new(alloc);
    print(
        &mut held,
        format!(in alloc; "version {version}")?.as_bytes(),
    )?;
    let rows = conn.query_all("SELECT k, v FROM node ORDER BY k", &[])?;
    for row in &rows {
        let key = hex::encode(alloc, row.get::<Vec<u8>>(0)?)?;
        held.extend_from_slice(key.as_bytes())?;
        held.push(b' ')?;
        print(&mut held, &row.get::<Vec<u8>>(1)?)?;
    }
    Ok(held)
}
