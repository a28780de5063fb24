// SPDX-License-Identifier: Apache-2.0
// A table over the two files of a path: a database file and its log.
ghost use Rattle.std.specs.Prelude.{◌≡◌, Err, IfOk, IsTrue, codes};
ghost use Rattle.sqlite.specs.Files.{over_files};
ghost use Rattle.sqlite.specs.WalFiles.{image_at};
ghost use Rattle.sqlite.specs.WalReads.{AreClean};
ghost use Rattle.mstore.specs.Database.{stored, table_doubt};
ghost use Rattle.mstore.specs.InFiles.{FindsTable, LeavesTable};
ghost use Rattle.mstore.specs.declared.open_fault.OpenFault.TheVariants.{Store};

use crate::open_fault::OpenFault;
use crate::statements::fault_of;
use crate::table::Table;
use sqlite::{Connection, Error};
use sqlite_disk::{Disk, Files, Start};
use sqlite_std_file::FileFrom;
use sqlite_store::FileStore;
use std::rt::HostRuntime;

impl<S: Start> Table<FileStore<FileFrom<S>>> {
    /// The table in the files at a path, which are created if they do not exist. The log of the database is beside the file, and a
    /// statement that has returned is in it, even if the process is killed. `start` stands for what the files hold: `main` alone says
    /// that it is `Unknown`.
    ///
    /// # Errors
    ///
    /// Those of `adopt_file`. A file that is no database, or that another process has open, gives `Store`, and so does `:memory:`.
    pub fn open_file(
        rt: &HostRuntime,
        path: &str,
        start: S,
    ) -> Result<Table<FileStore<FileFrom<S>>>, OpenFault>
        ensures memory { path.now ≡ codes ":memory:" → result ≡ Err Store }
        ensures found { IfOk result (λ t. table_doubt over_files t ≡ 0 → FindsTable (image_at S.Start) (stored over_files t.conn)) }
    {
        let conn = match Connection::open_from(rt, path, false, start) {
            Ok(conn) => conn,
            Err((error, _)) => return Err(OpenFault::from(fault_of(&error))),
        };
        match Table::adopt_file(rt.alloc(), conn) {
            Ok(table) => Ok(table),
            Err((fault, _)) => Err(fault),
        }
    }
}

impl<D: Disk + Drop> Table<FileStore<D>> {
    /// Ends the table: the log of its database is copied into the file, and both files are given back, with no further call on them.
    /// If each answer of the disk was true up to then, there never was a doubt of a table that is alone in its database.
    ///
    /// # Errors
    ///
    /// What the files refuse, and out of memory. The files are then closed, and the log beside the file may have what the file lacks.
    pub fn close_file(self) -> Result<Files<D>, Error>
        ensures left { IfOk result (λ files. IsTrue self.is_alone → AreClean D.Disk files.log files.db → LeavesTable D.Disk files
            (stored over_files self.conn)) }
        ensures sure { IfOk result (λ files. IsTrue self.is_alone → AreClean D.Disk files.log files.db → table_doubt over_files self ≡ 0) }
    {
        let conn = self.into_connection();
        // asked for what its contract says: that the rows obey the schema
        let _ = conn.schema();
        match conn.close_files() {
            Ok(files) => Ok(files),
            Err((error, store)) => {
                drop(store.close());
                Err(error)
            }
        }
    }
}
