// Files that stop at one of their steps, as where the machine loses its power.
use std::alloc::{Allocator, Global};
use std::cell::Cell;
use std::fs::{File, Files, Metadata, OpenFile, OpenOptions};
use std::io::{self, ErrorKind, Read, Seek, SeekFrom, Write};

// How many steps were made, and the one from which on every step fails, counted from 1.
#[derive(Drop)]
pub(crate) struct Steps {
    made: Cell<u64>,
    stops_at: u64,
}

impl Steps {
    pub(crate) fn new(stops_at: u64) -> Steps {
        Steps {
            made: Cell::new(0),
            stops_at,
        }
    }

    pub(crate) fn made(&self) -> u64 {
        self.made.get()
    }

    fn step(&self) -> io::Result<()> {
        let made = self.made.get().saturating_add(1);
        self.made.set(made);
        if made >= self.stops_at {
            Err(io::Error::from(ErrorKind::Other))
        } else {
            Ok(())
        }
    }
}

// Files that make a step at each call.
#[derive(Drop)]
pub(crate) struct StoppingFiles<'a, R> {
    pub(crate) rt: &'a R,
    pub(crate) alloc: Global,
    pub(crate) steps: &'a Steps,
}

// An open file. A write takes one byte, which the disk has only when the file is synced: so a stop
// loses all that was not.
#[derive(Drop)]
pub(crate) struct StoppingFile<'a> {
    file: File,
    held: Vec<u8>,
    steps: &'a Steps,
}

impl<'a> Read for StoppingFile<'a> {
    fn read(&mut self, buf: &mut [u8]) -> io::Result<usize> {
        self.steps.step()?;
        self.file.read(buf)
    }
}

impl<'a> Write for StoppingFile<'a> {
    fn write(&mut self, buf: &[u8]) -> io::Result<usize> {
        self.steps.step()?;
        match buf.first() {
            None => Ok(0),
            Some(byte) => {
                self.held.push(*byte)?;
                Ok(1)
            }
        }
    }

    fn flush(&mut self) -> io::Result<()> {
        Ok(())
    }
}

impl<'a> Seek for StoppingFile<'a> {
    fn seek(&mut self, _to: SeekFrom) -> io::Result<u64> {
        Err(io::Error::from(ErrorKind::Unsupported))
    }
}

impl<'a> OpenFile for StoppingFile<'a> {
    fn metadata(&self) -> io::Result<Metadata> {
        self.steps.step()?;
        self.file.metadata()
    }

    fn set_len(&self, _size: u64) -> io::Result<()> {
        Err(io::Error::from(ErrorKind::Unsupported))
    }

    fn sync_all(&self) -> io::Result<()> {
        self.steps.step()?;
        let mut disk = &self.file;
        disk.write_all(&self.held)
    }

    fn sync_data(&self) -> io::Result<()> {
        self.sync_all()
    }
}

impl<'a, R: Files<File = File>> Files for StoppingFiles<'a, R> {
    type File = StoppingFile<'a>;

    type Dir = R::Dir;

    fn open_file(&self, how: &OpenOptions, path: &str) -> io::Result<StoppingFile<'a>> {
        self.steps.step()?;
        Ok(StoppingFile {
            file: self.rt.open_file(how, path)?,
            held: Vec::new(self.alloc),
            steps: self.steps,
        })
    }

    fn open_dir(&self, path: &str) -> io::Result<R::Dir> {
        self.steps.step()?;
        self.rt.open_dir(path)
    }

    fn metadata(&self, path: &str) -> io::Result<Metadata> {
        self.steps.step()?;
        self.rt.metadata(path)
    }

    fn symlink_metadata(&self, path: &str) -> io::Result<Metadata> {
        self.steps.step()?;
        self.rt.symlink_metadata(path)
    }

    fn copy(&self, from: &str, to: &str) -> io::Result<u64> {
        self.steps.step()?;
        self.rt.copy(from, to)
    }

    fn rename(&self, from: &str, to: &str) -> io::Result<()> {
        self.steps.step()?;
        self.rt.rename(from, to)
    }

    fn remove_file(&self, path: &str) -> io::Result<()> {
        self.steps.step()?;
        self.rt.remove_file(path)
    }

    fn create_dir(&self, path: &str) -> io::Result<()> {
        self.steps.step()?;
        self.rt.create_dir(path)
    }

    fn remove_dir(&self, path: &str) -> io::Result<()> {
        self.steps.step()?;
        self.rt.remove_dir(path)
    }

    fn remove_dir_all<B: Allocator>(&self, alloc: B, path: &str) -> io::Result<()> {
        self.steps.step()?;
        self.rt.remove_dir_all(alloc, path)
    }
}
