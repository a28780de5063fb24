// SPDX-License-Identifier: Apache-2.0
// Databases that exist: which of them are tables of nodes, and why others are refused.
use anyhow::Context;
use mstore::Table;
use mtranscript::{bytes_of, play, print_result};
use sqlite::{Alter, Connection};
use std::alloc::Global;

/// Makes a database in memory by the statements of the cases, and says whether it is taken, or by which fault it is refused;
/// and how many rows of nodes the connection that comes back has, and which version.
///
/// # Errors
///
/// If a case is not such a call, if a store fails, or if memory runs out.
pub fn play_database(alloc: Global, cases: &[&str], out: &mut Vec<u8>) -> anyhow::Result<()> {
    let mut conn = Connection::open_in_memory(alloc)?;
    play(cases, out, |case, _| {
        let bytes = bytes_of(alloc, case)?;
        let text = String::from_utf8(bytes).ok().context("not text")?;
        conn.execute(text.as_str(), &[])?;
        Ok(())
    })?;
    adopt(alloc, conn, out)
}

// Says whether a database is taken, or why not, and what the connection that comes back has.
fn adopt<S: Alter + Drop>(
    alloc: Global,
    conn: Connection<S>,
    out: &mut Vec<u8>,
) -> anyhow::Result<()> {
    let (told, mut conn) = match Table::adopt(alloc, conn) {
        Ok(table) => ("taken".to_string(alloc)?, table.into_connection()),
        Err((fault, conn)) => (fault.to_string(alloc)?, conn),
    };
    print_result(out, told.as_bytes())?;
    let count = "SELECT count(*) FROM node";
    if let Some(count) = number(&mut conn, count)? {
        print_result(out, format!(in alloc; "{count} nodes")?.as_bytes())?;
    }
    let version = "SELECT n FROM meta WHERE name = 'version'";
    if let Some(version) = number(&mut conn, version)? {
        print_result(out, format!(in alloc; "version {version}")?.as_bytes())?;
    }
    Ok(())
}

// The number that a query finds, if there is such a table, and a row.
fn number<S: Alter>(conn: &mut Connection<S>, query: &str) -> anyhow::Result<Option<i64>> {
    match conn.query_row(query, &[]) {
        Ok(row) => Ok(Some(row.get::<i64>(0)?)),
        Err(_) => Ok(None),
    }
}
