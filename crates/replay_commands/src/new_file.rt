//! A file that is written whole or not at all.

use std::alloc::Global;
use std::fs::{Files, OpenFile, OpenOptions, Permissions};
use std::io;
use std::io::{ErrorKind, Write};

/// How many names are tried for the file beside.
const MAX_NAMES: u32 = 1000;

/// A file that is being written. It stands beside the file that it is to replace, whose name it gets at the end.
#[derive(Drop)]
pub struct NewFile<F> {
    /// What is written.
    output: F,
    /// Why it couldn't be written, if a write failed, but for interrupts.
    refused: Option<ErrorKind>,
    /// The path of the file that is written.
    written: String,
    /// The path of the file that it is to replace.
    target: String,
}

/// Whether the path is of something that is there and can't be replaced, as a device or a pipe can't.
fn is_special<T: Files>(files: &T, path: &str) -> bool {
    match files.metadata(path) {
        Ok(there) => !there.is_file(),
        Err(_) => false,
    }
}

/// Returns the path behind links of a file that is there, and the path as it is for one that isn't.
fn behind_links<T: Files>(files: &T, alloc: Global, path: &str) -> io::Result<String> {
    match files.canonicalize(alloc, path) {
        Ok(real) => Ok(real.into_string()),
        Err(error) if error.kind() == ErrorKind::NotFound => Ok(String::from_str(alloc, path)?),
        Err(error) => Err(error),
    }
}

/// Returns the permissions of a file, if it is there.
fn permissions_of<T: Files>(files: &T, path: &str) -> Option<Permissions> {
    match files.metadata(path) {
        Ok(there) => Some(there.permissions()),
        Err(_) => None,
    }
}

/// Makes a new file beside a target, with the target's permissions.
fn beside<T: Files>(files: &T, alloc: Global, target: String) -> io::Result<NewFile<T::File>> {
    for number in 0..MAX_NAMES {
        let written = format!(in alloc; "{target}.{number}.new")?;
        match OpenOptions::new()
            .write(true)
            .create_new(true)
            .open(files, written.as_str())
        {
            Ok(output) => {
                if let Some(permissions) = permissions_of(files, target.as_str()) {
                    let _set = output.set_permissions(permissions);
                }
                return Ok(NewFile {
                    output,
                    refused: None,
                    written,
                    target,
                });
            }
            Err(error) if error.kind() == ErrorKind::AlreadyExists => {}
            Err(error) => return Err(error),
        }
    }
    Err(io::Error::from(ErrorKind::AlreadyExists))
}

/// Opens a device or a pipe, which is written as it is.
fn as_it_is<T: Files>(files: &T, alloc: Global, path: &str) -> io::Result<NewFile<T::File>> {
    let output = OpenOptions::new().write(true).open(files, path)?;
    Ok(NewFile {
        output,
        refused: None,
        written: String::from_str(alloc, path)?,
        target: String::from_str(alloc, path)?,
    })
}

impl<F: Write + OpenFile + Drop> NewFile<F> {
    /// Makes the file beside the one at `path`, or opens that one if it is a device or a pipe. Links are followed.
    pub fn create<T: Files<File = F>>(
        files: &T,
        alloc: Global,
        path: &str,
    ) -> io::Result<NewFile<F>> {
        if is_special(files, path) {
            return as_it_is(files, alloc, path);
        }
        let target = behind_links(files, alloc, path)?;
        beside(files, alloc, target)
    }

    /// Why the last write that failed did, `None` if none did.
    pub fn refused(&self) -> Option<ErrorKind> {
        self.refused
    }

    /// Whether there is a file beside.
    fn is_beside(&self) -> bool {
        self.written.as_str() != self.target.as_str()
    }

    /// Gives the file the name of the one that it replaces. If that fails, the file is removed.
    pub fn replace<T: Files<File = F>>(self, files: &T) -> io::Result<()> {
        if !self.is_beside() {
            return Ok(());
        }
        let renamed = match self.output.sync_all() {
            Ok(()) => files.rename(self.written.as_str(), self.target.as_str()),
            Err(error) => Err(error),
        };
        if renamed.is_err() {
            self.remove(files);
        }
        renamed
    }

    /// Removes the file that was written, so nothing is left of it.
    pub fn remove<T: Files<File = F>>(self, files: &T) {
        if self.is_beside() {
            let _removed = files.remove_file(self.written.as_str());
        }
    }
}

impl<F: Write> Write for NewFile<F> {
    /// Writes to the file, and remembers why that failed.
    fn write(&mut self, bytes: &[u8]) -> io::Result<usize> {
        let written = self.output.write(bytes);
        if let Err(error) = &written {
            if error.kind() != ErrorKind::Interrupted {
                self.refused = Some(error.kind());
            }
        }
        written
    }

    /// Flushes the file.
    fn flush(&mut self) -> io::Result<()> {
        self.output.flush()
    }
}
