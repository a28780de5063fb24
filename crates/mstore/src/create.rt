// SPDX-License-Identifier: Apache-2.0
// How the tables are made.

ghost use Rattle.std.specs.Prelude.{◌≡◌, ◌≢◌, ◌≤◌, false, OnOk, OnErr, Err, IsTrue};
ghost use Rattle.sqlite.specs.Held.{state};
ghost use Rattle.sqlite.specs.State.{HasCleanDisk};
ghost use Rattle.mstore.specs.Database.{doubt_of, IsIdle, IsBlank, IsBare, IsStore, IsUntouched};

use crate::open_fault::OpenFault;
use crate::statements::fault_of;
use sqlite::{Alter, Connection, Error};

// Makes both tables and the version, or nothing.
fn create_tables<S: Alter>(conn: &mut Connection<S>) -> Result<(), Error>
    requires { conn.old.in_transaction ≡ false }
    ensures order { doubt_of S.Store conn.old ≤ doubt_of S.Store conn.new }
    ensures made { doubt_of S.Store conn.new ≡ 0 → IsBlank (state S.Store conn.old) → OnOk result (IsBare (state S.Store conn.new).now) }
    ensures settled { doubt_of S.Store conn.new ≡ 0 → OnOk result ((state S.Store conn.new).now ≡ (state S.Store conn.new).committed) }
    ensures ended { conn.new.in_transaction ≡ false }
    ensures undone { HasCleanDisk (state S.Store conn.new) → IsTrue (state S.Store conn.new).is_open
        → OnErr result (((state S.Store conn.new).now ≡ (state S.Store conn.old).committed) × ((state S.Store conn.new).committed ≡
        (state S.Store conn.old).committed)) }
{
    let mut tx = conn.transaction();
    tx.execute(
        "CREATE TABLE node (k BLOB PRIMARY KEY NOT NULL, v BLOB NOT NULL)",
        &[],
    )?;
    tx.execute("CREATE TABLE meta (name TEXT PRIMARY KEY, n INTEGER)", &[])?;
    tx.execute("INSERT INTO meta (name, n) VALUES ('version', 2)", &[])?;
    tx.commit()?;
    Ok(())
}

// Makes the tables of a database that has none, or leaves it as it is.
pub(crate) fn make_tables<S: Alter>(conn: &mut Connection<S>) -> Result<(), OpenFault>
    requires { conn.old.in_transaction ≡ false }
    ensures order { doubt_of S.Store conn.old ≤ doubt_of S.Store conn.new }
    ensures store { doubt_of S.Store conn.new ≡ 0 → IsBlank (state S.Store conn.old) → OnOk result (IsStore (state S.Store conn.new)) }
    ensures made { doubt_of S.Store conn.new ≡ 0 → IsBlank (state S.Store conn.old) → OnOk result (IsBare (state S.Store conn.new).now) }
    ensures untouched { doubt_of S.Store conn.new ≡ 0 → IsIdle (state S.Store conn.old) → OnErr result (IsUntouched (state S.Store conn.old)
        (state S.Store conn.new)) }
    ensures key { result ≢ Err OpenFault.BadKey }
    ensures version { result ≢ Err OpenFault.BadVersion }
{
    match create_tables(conn) {
        Ok(()) => Ok(()),
        Err(error) => Err(OpenFault::from(fault_of(&error))),
    }
}
