//! Memory of a book that others share: what makes room in it, gives its memory back, and counts what is kept.

use crate::book::Book;
use sequential::Tends;
use std::alloc::AllocError as NoMemory;

/// Makes room in a book, as [`Book::reserve`] does.
#[derive(Clone, Copy, Debug)]
pub struct Reserve {
    /// For how many resources beside those that are held or waited for.
    pub resources: usize,
    /// For how many entries of the history.
    pub entries: usize,
}

impl Tends<Book> for Reserve {
    fn tend(&mut self, book: &mut Book) -> Result<(), NoMemory> {
        book.reserve(self.resources, self.entries)
    }
}

/// Gives back memory that isn't in use, as [`Book::shrink`] does.
#[derive(Clone, Copy, Debug)]
pub struct Shrink;

impl Tends<Book> for Shrink {
    fn tend(&mut self, book: &mut Book) -> Result<(), NoMemory> {
        book.shrink();
        Ok(())
    }
}
