//! The file to read, or the standard stream.

ghost use Rattle.std.specs.Prelude.{◌≡◌, Ok, None};
ghost use Rattle.either.specs.declared.Either.TheVariants.{Left};

use either::Either;
use std::fs::{File, Files};
use std::io;
use std::io::Read;

/// Opens the file at `path`, or gives `input` if there is no path. Fails if the file can't be opened.
pub fn open_source<T: Files, R: Read + Drop>(
    files: &T,
    path: Option<&str>,
    input: R,
) -> io::Result<Either<R, T::File>>
    ensures { path.entry ≡ None → result ≡ Ok (Left input) }
{
    match path {
        None => Ok(Either::Left(input)),
        Some(path) => match File::open(files, path) {
            Ok(file) => Ok(Either::Right(file)),
            Err(error) => Err(error),
        },
    }
}
