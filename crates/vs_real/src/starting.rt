//! The path at which a host listens: what stands in its way, and that it goes with the host.

use std::alloc::{AllocError, Global};
use std::fmt;
use std::fs::{self, Files};
use std::io::ErrorKind;
use std::os::unix::fs::MetadataExt;

/// The longest path of a Unix socket.
const LONGEST: usize = 107;

/// What stands in the way of a start.
#[derive(Clone, Copy, Debug, PartialEq, Eq)]
pub enum StartError {
    /// There is something at the path.
    PathExists,
    /// The path's folder isn't there.
    NoFolder,
    /// The path's folder may not be written to.
    NotAllowed,
    /// No socket can have this path: it is too long, or no path.
    BadPath,
    /// The system gives no socket.
    NoSocket,
}

impl StartError {
    /// What an error of the system says.
    pub(crate) fn of(kind: ErrorKind) -> StartError {
        match kind {
            ErrorKind::AddrInUse | ErrorKind::AlreadyExists => StartError::PathExists,
            ErrorKind::NotFound | ErrorKind::NotADirectory => StartError::NoFolder,
            ErrorKind::PermissionDenied | ErrorKind::ReadOnlyFilesystem => StartError::NotAllowed,
            ErrorKind::InvalidInput | ErrorKind::InvalidFilename => StartError::BadPath,
            _ => StartError::NoSocket,
        }
    }
}

impl fmt::Display for StartError {
    fn fmt<W: fmt::Write>(&self, f: &mut fmt::Formatter<W>) -> fmt::Result {
        f.write_str(match self {
            StartError::PathExists => "something is there already: remove it, or take another path",
            StartError::NoFolder => "its folder isn't there",
            StartError::NotAllowed => "its folder may not be written to",
            StartError::BadPath => "no socket can have this path",
            StartError::NoSocket => "the system gives no socket",
        })
    }
}

/// What the system knows a file by: its device and its number there.
#[derive(Clone, Copy, PartialEq, Eq)]
struct FileId {
    device: u64,
    number: u64,
}

/// The path of a socket that was made, if one was. There is room for any path from the beginning on.
#[derive(Drop)]
pub struct MadePath {
    path: String,
    made: Option<FileId>,
}

impl MadePath {
    /// None was made so far.
    pub fn new(alloc: Global) -> Result<MadePath, AllocError> {
        let path = String::with_capacity(alloc, LONGEST)?;
        Ok(MadePath { path, made: None })
    }

    /// A socket was made at this path.
    pub fn keep<R: Files>(&mut self, rt: &R, path: &str) {
        self.path.clear();
        self.made = match self.path.push_str(path) {
            Ok(()) => file_at(rt, path),
            Err(AllocError) => None,
        };
    }

    /// Removes the socket that was made, where it is still there. What was put in its place stays.
    pub fn remove<R: Files>(&mut self, rt: &R) {
        if self.made.is_some() && file_at(rt, self.path.as_str()) == self.made {
            let _ = fs::remove_file(rt, self.path.as_str());
        }
        self.made = None;
    }
}

// What is at a path.
fn file_at<R: Files>(rt: &R, path: &str) -> Option<FileId> {
    let metadata = fs::symlink_metadata(rt, path).ok()?;
    Some(FileId {
        device: metadata.dev(),
        number: metadata.ino(),
    })
}
