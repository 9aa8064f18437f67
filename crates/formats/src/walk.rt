//! The files of a directory.

use std::alloc::{AllocError, Global};
use std::{fs, io};

/// A path in a directory, or the reason that a path was not read. They are ordered by path.
#[derive(Debug, Drop, PartialEq, Eq, PartialOrd, Ord)]
struct Place {
    path: String,
    kind: Kind,
}

/// The kinds of places.
#[derive(Debug, Drop, PartialEq, Eq, PartialOrd, Ord)]
enum Kind {
    /// A directory whose files are read.
    Directory,
    /// A file that is read.
    File,
    /// A path that was not read, with its error.
    Unread(String),
}

/// A path that was not read.
#[derive(Debug, Drop)]
pub struct Unread {
    /// The path.
    pub path: String,
    /// The error.
    pub text: String,
}

/// The files of a directory and of the directories in it, ordered by name. Links to directories are not
/// followed. What is neither a file nor a directory is skipped.
#[derive(Drop)]
pub struct Walk {
    // The places that are left, the next one at the end.
    left: Vec<Place>,
}

impl Walk {
    /// Returns the files of a directory.
    pub fn over(alloc: Global, directory: &str) -> Result<Walk, AllocError> {
        let mut left = Vec::new(alloc);
        left.push(Place {
            path: String::from_str(alloc, directory)?,
            kind: Kind::Directory,
        })?;
        Ok(Walk { left })
    }

    /// Returns the path of the next file, or a path that was not read. Returns `None` after the last one.
    ///
    /// # Errors
    ///
    /// An allocation failed.
    pub fn next_file(
        &mut self,
        rt: &HostRuntime,
    ) -> Result<Option<Result<String, Unread>>, AllocError> {
        for _ in 0..u64::MAX {
            let Some(Place { path, kind }) = self.left.pop() else {
                break;
            };
            match kind {
                Kind::File => return Ok(Some(Ok(path))),
                Kind::Unread(text) => return Ok(Some(Err(Unread { path, text }))),
                Kind::Directory => self.open(rt, path)?,
            }
        }
        Ok(None)
    }

    /// Adds the entries of a directory.
    fn open(&mut self, rt: &HostRuntime, path: String) -> Result<(), AllocError> {
        match places(rt, path.as_str()) {
            Ok(mut places) => {
                places.sort()?;
                for place in places.into_iter().rev() {
                    self.left.push(place)?;
                }
                Ok(())
            }
            Err(error) => {
                let text = format!(in rt.alloc(); "{error}")?;
                self.left.push(Place {
                    path,
                    kind: Kind::Unread(text),
                })?;
                Ok(())
            }
        }
    }
}

/// Returns the entries of a directory, in any order.
fn places(rt: &HostRuntime, directory: &str) -> io::Result<Vec<Place>> {
    let alloc = rt.alloc();
    let mut places = Vec::new(alloc);
    for entry in fs::read_dir(rt, directory)? {
        match entry {
            Ok(entry) => {
                let path = entry.path().to_string_lossy();
                if let Some(kind) = kind_of(rt, path, &entry)? {
                    places.push(Place {
                        path: String::from_str(alloc, path)?,
                        kind,
                    })?;
                }
            }
            Err(error) => places.push(Place {
                path: String::from_str(alloc, directory)?,
                kind: Kind::Unread(format!(in alloc; "{error}")?),
            })?,
        }
    }
    Ok(places)
}

/// Returns the kind of a path, or `None` for a path that is skipped.
fn kind_of(rt: &HostRuntime, path: &str, entry: &fs::DirEntry) -> Result<Option<Kind>, AllocError> {
    let kind = match entry.file_type() {
        Ok(kind) if kind.is_symlink() => fs::metadata(rt, path).map(|it| it.is_file()),
        Ok(kind) if kind.is_dir() => return Ok(Some(Kind::Directory)),
        Ok(kind) => Ok(kind.is_file()),
        Err(error) => Err(error),
    };
    match kind {
        Ok(true) => Ok(Some(Kind::File)),
        Ok(false) => Ok(None),
        Err(error) => Ok(Some(Kind::Unread(format!(in rt.alloc(); "{error}")?))),
    }
}
