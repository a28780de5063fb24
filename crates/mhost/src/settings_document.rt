// SPDX-License-Identifier: Apache-2.0
// The document of the settings.
ghost use Rattle.std.specs.Prelude.{◌≡◌, ◌≤◌, Some, IfOk, IfErr, vec_len};
ghost use Rattle.mgrant.specs.Reading.{IsRead};
ghost use Rattle.mhost.specs.Faults.{NoDocument, NoSettings};

use crate::documents::{DocumentFault, Documents};
use crate::fault::RunFault;
use mgrant::{Settings, SettingsFault};
use std::alloc::Global;

// The most bytes that a document of settings may have.
const MAX_DOCUMENT: u64 = 1_000_000;

/// The bytes of the document at this path, of which there are at most 1,000,000.
///
/// # Errors
///
/// `Unread` if there is no such document, if it cannot be read (as a folder cannot), or if it has more bytes; `Settings(Memory)`.
pub fn read_document<D: Documents>(
    alloc: Global,
    documents: &mut D,
    path: &str,
) -> Result<Vec<u8>, RunFault>
    ensures most { IfOk result (λ bytes. vec_len bytes ≤ 1000000) }
    ensures ok { IfOk result (λ bytes. D.tells → D.held documents.old path.now ≡ Some bytes.items) }
    ensures err { IfErr result (NoDocument D.tells (D.held documents.old path.now)) }
{
    match documents.first_bytes(alloc, path, MAX_DOCUMENT + 1) {
        Ok(bytes) => {
            if bytes.len() as u64 > MAX_DOCUMENT {
                return Err(RunFault::Unread);
            }
            Ok(bytes)
        }
        Err(DocumentFault::Unread) => Err(RunFault::Unread),
        Err(DocumentFault::Memory) => Err(RunFault::Settings(SettingsFault::Memory)),
    }
}

/// The settings that a document gives.
///
/// # Errors
///
/// `Settings`, with the document's first fault or `Memory`.
pub fn read_settings(alloc: Global, document: &[u8]) -> Result<Settings, RunFault>
    ensures ok { IfOk result (IsRead document.now) }
    ensures err { IfErr result (NoSettings document.now) }
{
    match Settings::read(alloc, document) {
        Ok(settings) => Ok(settings),
        Err(fault) => Err(RunFault::Settings(fault)),
    }
}
