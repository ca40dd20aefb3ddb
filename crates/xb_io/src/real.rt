//! The real files and standard output. They do not tell: no contract can say what a file holds.
ghost use Rattle.std.specs.Prelude.{◌≡◌, ◌≤◌, length, IfOk, None};

use crate::{Failed, Shelf, Sink};
use std::fs::File;
use std::io;
use std::io::{Read, Seek, SeekFrom};
use std::marker::Model;
use std::rt::Files;

// A file that is open, and the offset at which its next read begins. If there was no memory for its name, the file is
// opened again for the next read.
#[derive(Drop)]
struct OpenFile<F> {
    name: Option<String>,
    at: u64,
    file: F,
}

/// The real files. It does not tell what they hold. The file that was read last stays open, so that a file that can
/// only be read from its front, as a pipe, is read as well.
#[derive(Drop)]
pub struct FileShelf<'a, R: Files> {
    files: &'a R,
    open: Option<OpenFile<R::File>>,
    faults: u64,
}

// Contracts see how often it has failed.
impl<'a, R: Files> Model for FileShelf<'a, R> {
    ghost use Rattle.std.specs.Prelude.{ℕ};

    ghost Value = { ℕ };

    ghost view = { λ s. s.faults };
}

impl<'a, R: Files> FileShelf<'a, R> {
    /// A shelf that has not failed yet.
    pub fn new(files: &'a R) -> FileShelf<'a, R>
        ensures { result ≡ 0 }
    {
        FileShelf {
            files,
            open: None,
            faults: 0,
        }
    }
}

// Whether the open file has that name.
fn is_named<F>(open: &OpenFile<F>, name: &str) -> bool {
    match &open.name {
        Some(known) => known.as_str() == name,
        None => false,
    }
}

// The file of that name: the one that is open, or else opened.
fn open_file<R: Files + AllocGlobal>(
    files: &R,
    open: Option<OpenFile<R::File>>,
    name: &str,
) -> io::Result<OpenFile<R::File>> {
    match open {
        Some(file) if is_named(&file, name) => Ok(file),
        _ => Ok(OpenFile {
            name: String::from_str(files.alloc(), name).ok(),
            at: 0,
            file: File::open(files, name)?,
        }),
    }
}

// Reads from offset `at`, and moves to it first if the file is at another.
fn read_at<F: Read + Seek>(open: &mut OpenFile<F>, at: u64, buf: &mut [u8]) -> io::Result<usize>
    ensures { IfOk result (λ n. n ≤ length buf.new) }
{
    if open.at != at {
        open.at = open.file.seek(SeekFrom::Start(at))?;
    }
    let count = open.file.read(buf)?;
    open.at = open.at.saturating_add(count as u64);
    Ok(count)
}

// Reads from the named file, and keeps it open if the read succeeds.
fn read_file<R: Files + AllocGlobal>(
    shelf: &mut FileShelf<'_, R>,
    name: &str,
    at: u64,
    buf: &mut [u8],
) -> io::Result<usize>
    ensures read { IfOk result (λ n. n ≤ length buf.new) }
    ensures same { shelf.new ≡ shelf.old }
{
    let mut open = open_file(shelf.files, shelf.open.take(), name)?;
    let count = read_at(&mut open, at, buf)?;
    shelf.open = Some(open);
    Ok(count)
}

impl<'a, R: Files + AllocGlobal> Shelf for FileShelf<'a, R> {
    ghost held = { λ _. None };

    ghost faults = { λ s. s };

    fn read(&mut self, name: &str, at: u64, buf: &mut [u8]) -> Result<usize, Failed> {
        match read_file(self, name, at, buf) {
            Ok(count) => Ok(count),
            Err(_) => {
                self.faults = self.faults.saturating_add(1);
                Err(Failed)
            }
        }
    }
}

/// Standard output. It does not tell what it took.
#[derive(Drop)]
pub struct StdSink<'a, P: Print> {
    out: &'a P,
    faults: u64,
}

// Contracts see how often it has failed.
impl<'a, P: Print> Model for StdSink<'a, P> {
    ghost use Rattle.std.specs.Prelude.{ℕ};

    ghost Value = { ℕ };

    ghost view = { λ s. s.faults };
}

impl<'a, P: Print> StdSink<'a, P> {
    /// A sink that has not failed yet.
    pub fn new(out: &'a P) -> StdSink<'a, P>
        ensures { result ≡ 0 }
    {
        StdSink { out, faults: 0 }
    }
}

impl<'a, P: Print> Sink for StdSink<'a, P> {
    ghost took = { λ _. None };

    ghost faults = { λ s. s };

    fn put(&mut self, bytes: &[u8]) -> Result<(), Failed> {
        match self.out.write_all(bytes) {
            Ok(()) => Ok(()),
            Err(_) => {
                self.faults = self.faults.saturating_add(1);
                Err(Failed)
            }
        }
    }
}
