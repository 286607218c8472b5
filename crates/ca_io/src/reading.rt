//! Reading a whole file.

ghost use Rattle.std.specs.Prelude.{◌≡◌, ℕ, ◌<◌, ◌≤◌, List, length, IfOk, IfSome, IsErrOf};
ghost use Rattle.ca_io.specs.Reading.{HasReadCause};

use crate::failed::Failed;
use crate::files::Files;
use std::alloc::{AllocError, Global};
use syntax_trees::{Bytes, Seq};
use thiserror::Error;

/// Why a file was not read whole.
#[derive(Clone, Copy, Debug, Error)]
pub enum FileError {
    /// A read of the source failed.
    #[error("the file cannot be read")]
    Fault,
    /// The file has more bytes than the limit.
    #[error("the file has too many bytes")]
    Limit,
    /// Want of memory.
    #[error("out of memory")]
    Memory,
}

impl From<AllocError> for FileError {
    ghost use Rattle.ca_io.specs.declared.reading.FileError.TheVariants.{Memory};

    ghost from_gives = { λ _ e. e ≡ Memory };

    fn from(_e: AllocError) -> FileError {
        FileError::Memory
    }
}

impl From<Failed> for FileError {
    ghost use Rattle.ca_io.specs.declared.reading.FileError.TheVariants.{Fault};

    ghost from_gives = { λ _ e. e ≡ Fault };

    fn from(_e: Failed) -> FileError {
        FileError::Fault
    }
}

/// The bytes that one read asks for.
const PIECE: usize = 4096;

/// Reads the whole file under a name, piece by piece.
///
/// - `Fault` comes where a read fails, as for a name that isn't there.
/// - `Limit` comes as soon as more than `limit` bytes came.
/// - `Memory` comes where memory runs out.
pub fn read_all<F: Files>(
    alloc: Global,
    files: &mut F,
    name: &str,
    limit: u64,
) -> Result<Bytes, FileError>
    ensures bytes { IfSome (F.held files.old name.now) (λ bytes. IfOk result (λ found. found ≡ bytes)) }
    ensures bound { IfOk result (λ found. length found ≤ limit) }
    ensures limit { IfSome (F.held files.old name.now) (λ bytes. IsErrOf result FileError.Limit → limit < length bytes) }
    ensures same { (other : List ℕ) → F.held files.new other ≡ F.held files.old other }
    ensures cause { HasReadCause (F.faults files.old) (F.faults files.new) result }
{
    let mut found = Vec::new(alloc);
    let mut piece = [0; PIECE];
    loop {
        let count = files.read(name, found.len() as u64, &mut piece)?;
        if count == 0 {
            return Ok(Seq::from_vec(found));
        }
        if limit - (found.len() as u64) < count as u64 {
            return Err(FileError::Limit);
        }
        found.extend_from_slice(&piece[..count])?;
    }
}
