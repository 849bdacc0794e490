//! A writer in memory that takes one byte at a call, and has trouble at one call.

use std::alloc::Global;
use std::io;
use std::io::{ErrorKind, Write};

/// What the writer does at one call.
#[derive(Clone, Copy)]
pub(crate) enum Trouble {
    Fails,
    IsInterrupted,
    TakesNothing,
}

/// At which call the trouble comes.
#[derive(Clone, Copy, PartialEq, Eq)]
pub(crate) enum Place {
    /// At this write, counted from 1.
    Write(usize),
    Flush,
}

/// The writer. It works again after its trouble, so that a second try would show.
#[derive(Drop)]
pub(crate) struct OneByte {
    place: Place,
    trouble: Trouble,
    pub(crate) writes: usize,
    pub(crate) flushes: usize,
    pub(crate) taken: Vec<u8>,
}

impl OneByte {
    pub(crate) fn new(alloc: Global, place: Place, trouble: Trouble) -> OneByte {
        OneByte {
            place,
            trouble,
            writes: 0,
            flushes: 0,
            taken: Vec::new(alloc),
        }
    }

    /// The error of the trouble, `None` where nothing is taken in its place.
    fn error(&self) -> Option<io::Error> {
        match self.trouble {
            Trouble::Fails => Some(io::Error::from(ErrorKind::Other)),
            Trouble::IsInterrupted => Some(io::Error::from(ErrorKind::Interrupted)),
            Trouble::TakesNothing => None,
        }
    }
}

impl Write for OneByte {
    fn write(&mut self, piece: &[u8]) -> io::Result<usize> {
        self.writes = self.writes.saturating_add(1);
        if self.place == Place::Write(self.writes) {
            return match self.error() {
                Some(error) => Err(error),
                None => Ok(0),
            };
        }
        match piece.first() {
            Some(byte) => {
                self.taken.push(*byte)?;
                Ok(1)
            }
            None => Ok(0),
        }
    }

    fn flush(&mut self) -> io::Result<()> {
        self.flushes = self.flushes.saturating_add(1);
        if self.place == Place::Flush && self.flushes == 1 {
            return match self.error() {
                Some(error) => Err(error),
                None => Ok(()),
            };
        }
        Ok(())
    }
}
