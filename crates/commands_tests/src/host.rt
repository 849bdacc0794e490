//! A runtime of which a test says everything: the words, the one file, and what becomes of output.

use crate::program::{EMPTY, NEXT, REPORT, SCHEDULE};
use std::alloc::{Allocator, Global};
use std::cell::{Cell, RefCell};
use std::env::FillError;
use std::fmt::Display;
use std::fs::{Metadata, OpenFile, OpenOptions};
use std::io;
use std::io::{Read, Seek, SeekFrom, Write};
use std::rt::{Env, Files};

/// What the file does when it is read.
#[derive(Clone, Copy, PartialEq, Eq)]
pub(crate) enum Reads {
    AllBytes,
    Fails,
    WantsMemory,
}

/// What the standard output does with the first write. It takes all later ones.
#[derive(Clone, Copy, PartialEq, Eq)]
pub(crate) enum Prints {
    All,
    Fails,
    Interrupted,
}

/// A process with the file `a.stm`, and those of `program`: `a.report` and `a.schedule`, and the earlier ones `o.stm`
/// and `o.report`.
#[derive(Drop)]
pub(crate) struct Host<'a> {
    alloc: Global,
    words: &'a [&'a [u8]],
    file: &'a [u8],
    reads: Reads,
    prints: Prints,
    /// How many writes the standard output got.
    pub(crate) writes: Cell<u32>,
    /// The bytes of the last write that it took.
    printed: RefCell<Vec<u8>>,
    /// What the standard error got last.
    said: RefCell<String>,
}

impl<'a> Host<'a> {
    pub(crate) fn new(
        alloc: Global,
        words: &'a [&'a [u8]],
        file: &'a [u8],
        how: (Reads, Prints),
    ) -> Host<'a> {
        Host {
            alloc,
            words,
            file,
            reads: how.0,
            prints: how.1,
            writes: Cell::new(0),
            printed: RefCell::new(Vec::new(alloc)),
            said: RefCell::new(String::new(alloc)),
        }
    }

    /// A text for the standard error.
    fn hear(&self, text: String) {
        // A text that finds no room is missed by the test that asks for it.
        let _unheard = self.said.try_replace(text);
    }

    /// Whether what the standard error got last begins so, or it got nothing where this is nothing.
    pub(crate) fn says(&self, text: &str) -> bool {
        match self.said.try_borrow() {
            Ok(said) => said.as_str().starts_with(text) && said.is_empty() == text.is_empty(),
            Err(_) => false,
        }
    }

    /// Whether this was the last that the standard output took.
    pub(crate) fn took(&self, text: &str) -> bool {
        match self.printed.try_borrow() {
            Ok(printed) => printed.as_slice() == text.as_bytes(),
            Err(_) => false,
        }
    }

    /// Bytes that the standard output took.
    fn keep(&self, bytes: &[u8]) -> io::Result<()> {
        let mut printed = Vec::new(self.alloc);
        printed.extend_from_slice(bytes)?;
        match self.printed.try_replace(printed) {
            Ok(_) => Ok(()),
            Err(_) => Err(io::Error::from(io::ErrorKind::Other)),
        }
    }

    /// One write to the standard output.
    fn write_once(&self) -> io::Result<()> {
        let first = self.writes.get() == 0;
        self.writes.set(self.writes.get().saturating_add(1));
        match self.prints {
            Prints::Fails if first => Err(io::Error::from(io::ErrorKind::BrokenPipe)),
            Prints::Interrupted if first => Err(io::Error::from(io::ErrorKind::Interrupted)),
            _ => Ok(()),
        }
    }
}

impl Alloc for Host<'_> {
    type A = Global;

    fn alloc(&self) -> Global {
        self.alloc
    }
}

impl Print for Host<'_> {
    fn print<D: Display + Drop>(&self, value: D) -> io::Result<()> {
        self.write_all(format!(in self.alloc; "{value}")?.as_bytes())
    }

    fn println<D: Display + Drop>(&self, value: D) -> io::Result<()> {
        self.write_all(format!(in self.alloc; "{value}\n")?.as_bytes())
    }

    fn write_all(&self, bytes: &[u8]) -> io::Result<()> {
        self.write_once()?;
        self.keep(bytes)
    }
}

impl Eprint for Host<'_> {
    fn eprint<D: Display + Drop>(&self, value: D) -> io::Result<()> {
        self.hear(format!(in self.alloc; "{value}")?);
        Ok(())
    }

    fn eprintln<D: Display + Drop>(&self, value: D) -> io::Result<()> {
        self.hear(format!(in self.alloc; "{value}\n")?);
        Ok(())
    }
}

impl Env for Host<'_> {
    fn arg(&self, i: usize, buf: &mut [u8]) -> Result<usize, FillError> {
        let Some(word) = self.words.get(i) else {
            return Err(FillError::NotPresent);
        };
        let Some(place) = buf.get_mut(..word.len()) else {
            return Err(FillError::TooLong);
        };
        place.copy_from_slice(word);
        Ok(word.len())
    }

    fn var(&self, _name: &str, _buf: &mut [u8]) -> Result<usize, FillError> {
        Err(FillError::NotPresent)
    }

    fn var_at(&self, _i: usize, _buf: &mut [u8]) -> Result<usize, FillError> {
        Err(FillError::NotPresent)
    }
}

/// A file that is open for reading.
#[derive(Drop)]
pub(crate) struct Opened<'a> {
    rest: &'a [u8],
    reads: Reads,
}

fn unsupported<T>() -> io::Result<T> {
    Err(io::Error::from(io::ErrorKind::Unsupported))
}

impl Read for Opened<'_> {
    fn read(&mut self, buf: &mut [u8]) -> io::Result<usize> {
        match self.reads {
            Reads::AllBytes => self.rest.read(buf),
            Reads::Fails => Err(io::Error::from(io::ErrorKind::Other)),
            Reads::WantsMemory => Err(io::Error::from(io::ErrorKind::OutOfMemory)),
        }
    }
}

impl Write for Opened<'_> {
    fn write(&mut self, _piece: &[u8]) -> io::Result<usize> {
        Err(io::Error::from(io::ErrorKind::Unsupported))
    }

    fn flush(&mut self) -> io::Result<()> {
        unsupported()
    }
}

impl Seek for Opened<'_> {
    fn seek(&mut self, _to: SeekFrom) -> io::Result<u64> {
        unsupported()
    }
}

impl OpenFile for Opened<'_> {
    fn metadata(&self) -> io::Result<Metadata> {
        unsupported()
    }

    fn set_len(&self, _size: u64) -> io::Result<()> {
        unsupported()
    }

    fn sync_all(&self) -> io::Result<()> {
        unsupported()
    }

    fn sync_data(&self) -> io::Result<()> {
        unsupported()
    }
}

impl<'a> Files for Host<'a> {
    type File = Opened<'a>;

    type Dir = io::Empty;

    fn open_file(&self, _how: &OpenOptions, path: &str) -> io::Result<Opened<'a>> {
        let rest = match path {
            "a.stm" => self.file,
            "a.report" => REPORT,
            "a.schedule" => SCHEDULE,
            "o.stm" => NEXT,
            "o.report" => EMPTY,
            _ => return Err(io::Error::from(io::ErrorKind::NotFound)),
        };
        Ok(Opened {
            rest,
            reads: self.reads,
        })
    }

    fn open_dir(&self, _path: &str) -> io::Result<io::Empty> {
        unsupported()
    }

    fn metadata(&self, _path: &str) -> io::Result<Metadata> {
        unsupported()
    }

    fn symlink_metadata(&self, _path: &str) -> io::Result<Metadata> {
        unsupported()
    }

    fn copy(&self, _from: &str, _to: &str) -> io::Result<u64> {
        unsupported()
    }

    fn rename(&self, _from: &str, _to: &str) -> io::Result<()> {
        unsupported()
    }

    fn remove_file(&self, _path: &str) -> io::Result<()> {
        unsupported()
    }

    fn create_dir(&self, _path: &str) -> io::Result<()> {
        unsupported()
    }

    fn remove_dir(&self, _path: &str) -> io::Result<()> {
        unsupported()
    }

    fn remove_dir_all<B: Allocator>(&self, _alloc: B, _path: &str) -> io::Result<()> {
        unsupported()
    }
}
