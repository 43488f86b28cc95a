//! A disk over a file of the operating system. It tells nothing, and each refusal of the system is a fault.
ghost use Rattle.std.specs.Prelude.{◌≡◌, [], List, ℕ, IfOk};

use crate::{Disk, DiskFailed, NoMemory};
use std::alloc::Global;
use std::fs::{File, OpenFile, OpenOptions};
use std::io;
use std::io::{ErrorKind, Read, Seek, SeekFrom, Write};
use std::rt::Files;

/// A file that is opened, or made, at the first call.
///
/// It is trusted to behave as a disk and isn't proved to, since no contract can say what a file holds. What is proved
/// is that each failure raises the count of faults. Its limits:
///
/// - The system's `fsync` is trusted to put the bytes on the medium, as is the device below it.
/// - A file that has no bytes when it is opened is synced, and so is its folder. A folder further up that is new isn't.
/// - A read past the end, and a write that begins past it, are faults. A folder in the file's place, a path in a
///   missing folder, an empty path, and a file that may not be read or written are faults at each call.
/// - Nobody else may write the file meanwhile. A path of another device than a file of bytes, such as a terminal, is
///   no disk.
/// - The open file's number is 3 or more, so that what is meant for a standard stream that was closed before the
///   start never lands in it.
#[derive(Drop)]
pub struct FileDisk<'a, R: Files> {
    rt: &'a R,
    path: String,
    file: Option<R::File>,
    faults: u64,
}

impl<'a, R: Files> FileDisk<'a, R> {
    /// A disk over the file at this path. It makes no call of the system.
    pub fn new(rt: &'a R, alloc: Global, path: &str) -> Result<FileDisk<'a, R>, NoMemory>
        ensures faults { IfOk result (λ d. d.faults ≡ 0) }
    {
        match String::from_str(alloc, path) {
            Ok(path) => Ok(FileDisk {
                rt,
                path,
                file: None,
                faults: 0,
            }),
            Err(_) => Err(NoMemory),
        }
    }
}

/// The folder that a file's name stands in.
fn folder_of(path: &str) -> &str {
    match path.rfind('/') {
        Some(0) => "/",
        Some(end) => match path.get(..end) {
            Some(folder) => folder,
            None => ".",
        },
        None => ".",
    }
}

/// Opens a file for both, or makes it. One without bytes may be new, so its name is put on the medium.
fn open_or_make<R: Files>(rt: &R, path: &str) -> io::Result<R::File> {
    let file = OpenOptions::new()
        .read(true)
        .write(true)
        .create(true)
        .open(rt, path)?;
    if size_of(&file)? == 0 {
        file.sync_all()?;
        let folder = File::open(rt, folder_of(path))?;
        folder.sync_all()?;
    }
    Ok(file)
}

/// Takes the open file, or opens it. The copy's number is 3 or more.
fn opened<R: Files>(rt: &R, path: &str, file: &mut Option<R::File>) -> io::Result<R::File> {
    match file.take() {
        Some(file) => Ok(file),
        None => open_or_make(rt, path)?.try_clone(),
    }
}

fn size_of<F: OpenFile>(file: &F) -> io::Result<u64> {
    Ok(file.metadata()?.len())
}

fn read_exact_at<F: Read + Seek>(file: &mut F, at: u64, into: &mut [u8]) -> io::Result<()> {
    file.seek(SeekFrom::Start(at))?;
    file.read_exact(into)
}

fn write_all_at<F: Write + Seek + OpenFile>(file: &mut F, at: u64, from: &[u8]) -> io::Result<()> {
    if size_of(file)? < at {
        return Err(ErrorKind::InvalidInput.into());
    }
    file.seek(SeekFrom::Start(at))?;
    file.write_all(from)
}

impl<'a, R: Files> FileDisk<'a, R> {
    fn try_size(&mut self) -> io::Result<u64>
        ensures { self.new.faults ≡ self.old.faults }
    {
        let file = opened(self.rt, self.path.as_str(), &mut self.file)?;
        let found = size_of(&file);
        self.file = Some(file);
        found
    }

    fn try_read(&mut self, at: u64, into: &mut [u8]) -> io::Result<()>
        ensures { self.new.faults ≡ self.old.faults }
    {
        let mut file = opened(self.rt, self.path.as_str(), &mut self.file)?;
        let done = read_exact_at(&mut file, at, into);
        self.file = Some(file);
        done
    }

    fn try_write(&mut self, at: u64, from: &[u8]) -> io::Result<()>
        ensures { self.new.faults ≡ self.old.faults }
    {
        let mut file = opened(self.rt, self.path.as_str(), &mut self.file)?;
        let done = write_all_at(&mut file, at, from);
        self.file = Some(file);
        done
    }

    fn try_sync(&mut self) -> io::Result<()>
        ensures { self.new.faults ≡ self.old.faults }
    {
        let file = opened(self.rt, self.path.as_str(), &mut self.file)?;
        let done = file.sync_all();
        self.file = Some(file);
        done
    }
}

impl<'a, R: Files> Disk for FileDisk<'a, R> {
    ghost tells = { ⊥ };

    ghost bytes = { λ d. [] };

    ghost moment = { λ d. 0 };

    ghost left_since = { λ d t c. ⊥ };

    ghost calls = { λ d. 0 };

    ghost faults = { λ d. d.faults };

    ghost reads_an_image = { λ d told. told };

    ghost counts_now = { λ d t c told le now. now };

    fn size(&mut self) -> Result<u64, DiskFailed> {
        match self.try_size() {
            Ok(size) => Ok(size),
            Err(_) => {
                self.faults = self.faults.saturating_add(1);
                Err(DiskFailed)
            }
        }
    }

    fn read(&mut self, at: u64, into: &mut [u8]) -> Result<(), DiskFailed> {
        match self.try_read(at, into) {
            Ok(()) => Ok(()),
            Err(_) => {
                self.faults = self.faults.saturating_add(1);
                Err(DiskFailed)
            }
        }
    }

    fn write_at(&mut self, at: u64, from: &[u8]) -> Result<(), DiskFailed> {
        match self.try_write(at, from) {
            Ok(()) => Ok(()),
            Err(_) => {
                self.faults = self.faults.saturating_add(1);
                Err(DiskFailed)
            }
        }
    }

    fn sync(&mut self) -> Result<(), DiskFailed> {
        match self.try_sync() {
            Ok(()) => Ok(()),
            Err(_) => {
                self.faults = self.faults.saturating_add(1);
                Err(DiskFailed)
            }
        }
    }
}
