//! A source over a file of the system. It is trusted edge: what a file holds, no contract says.

ghost use Rattle.std.specs.Prelude.{◌≡◌, ℕ, ◌+◌, ◌<◌, ◌≤◌, None, IfOk, IfSome, length};

use crate::NoMemory;
use crate::source::{Failed, Source};
use std::alloc::Global;
use std::fs::File;
use std::io::{ErrorKind, Read};
use std::rt::Files;

/// How often a call that was interrupted is tried.
const TRIES: u32 = 1000;

/// A file, which is opened at the first call. It tells no bytes. A file that is missing, that can't
/// be read, or that is a folder fails at each call.
#[derive(Drop)]
pub struct FileSource<'a, R: Files> {
    rt: &'a R,
    path: String,
    file: Option<R::File>,
    faults: u64,
}

impl<'a, R: Files> FileSource<'a, R> {
    /// A source of the file at this path. The file isn't opened yet.
    pub fn new(rt: &'a R, alloc: Global, path: &str) -> Result<FileSource<'a, R>, NoMemory>
        ensures { IfOk result (λ s. s.faults ≡ 0) }
    {
        match String::from_str(alloc, path) {
            Ok(path) => Ok(FileSource {
                rt,
                path,
                file: None,
                faults: 0,
            }),
            Err(_) => Err(NoMemory),
        }
    }

    fn read_once(&mut self, into: &mut [u8]) -> Option<usize>
        ensures bound { IfSome result (λ n. n ≤ length into.new) }
        ensures kept { self.new.faults ≡ self.old.faults }
    {
        if self.file.is_none() {
            match File::open(self.rt, self.path.as_str()) {
                Ok(file) => self.file = Some(file),
                Err(_) => return None,
            }
        }
        let file = self.file.as_mut()?;
        for _ in 0..TRIES {
            match file.read(into) {
                Ok(n) => return Some(n),
                Err(error) => {
                    if error.kind() != ErrorKind::Interrupted {
                        return None;
                    }
                }
            }
        }
        None
    }
}

impl<'a, R: Files> Source for FileSource<'a, R> {
    ghost left = { λ s. None };

    ghost faults = { λ s. s.faults };

    fn read(&mut self, into: &mut [u8]) -> Result<usize, Failed> {
        match self.read_once(into) {
            Some(n) => Ok(n),
            None => {
                self.faults = self.faults.saturating_add(1);
                Err(Failed)
            }
        }
    }
}
