//! The folder of the MIDI files.

ghost use Rattle.std.specs.Prelude.{◌≡◌, ◌≢◌, ◌↔◌, ◌++◌, [], codes, string_bytes, None, IfOk, IsErr, IsTrue, MatchResult, ⊤};
ghost use Rattle.std.specs.IoError.{error_kind};
ghost use Rattle.abc2midi_live.specs.Storing.{store_view};

use abc2midi_live::{Store, StoreFault};
use std::fs::{self, File};
use std::io::{self, ErrorKind, Write};
use std::rt::Runtime;

/// What a path leads to.
#[derive(Drop)]
pub(crate) enum PathKind {
    Folder,
    /// A file, or something else that is not a folder.
    NoFolder,
    Nothing,
    /// It cannot be reached, for instance if a folder in the path may not be entered.
    Unreachable(io::Error),
}

/// Whether an error says that there is no such file.
fn is_missing(error: &io::Error) -> bool
    ensures { IsTrue result ↔ (error_kind error.now ≡ ErrorKind.NotFound) }
{
    error.kind() == ErrorKind::NotFound
}

/// Files by their names in one folder. For each file that cannot be stored or removed it prints the reason on standard
/// error.
#[derive(Drop)]
pub(crate) struct Directory<'a, R: Runtime + AllocGlobal> {
    rt: &'a R,
    path: &'a str,
    failures: u64,
    calls: u64,
}

impl<'a, R: Runtime + AllocGlobal> Directory<'a, R> {
    /// Returns the folder of this path. No call has been made yet.
    pub(crate) fn new(rt: &'a R, path: &'a str) -> Self
        ensures path { result.path.now ≡ path.now }
        ensures failures { result.failures ≡ 0 }
        ensures calls { result.calls ≡ 0 }
    {
        Directory {
            rt,
            path,
            failures: 0,
            calls: 0,
        }
    }

    /// Returns what the path of the folder leads to.
    pub(crate) fn path_kind(&self) -> PathKind {
        match fs::metadata(self.rt, self.path) {
            Ok(metadata) if metadata.is_dir() => PathKind::Folder,
            Ok(_) => PathKind::NoFolder,
            Err(error) if is_missing(&error) => PathKind::Nothing,
            Err(error) => PathKind::Unreachable(error),
        }
    }

    /// Returns the path of the folder. An empty path has no files.
    fn folder(&self) -> io::Result<&str>
        ensures empty { self.now.path.now ≡ [] → IsErr result }
        ensures value { IfOk result (λ path. path.now ≡ self.now.path.now) }
    {
        if self.path.is_empty() {
            return Err(io::Error::from(ErrorKind::NotFound));
        }
        Ok(self.path)
    }

    /// Returns the path of a name in the folder.
    fn path_of(&self, name: &str) -> io::Result<String>
        ensures empty { self.now.path.now ≡ [] → IsErr result }
        ensures value { IfOk result (λ path. string_bytes path ≡ self.now.path.now ++ codes "/" ++ name.now) }
    {
        let folder = self.folder()?;
        Ok(format!(in self.rt.alloc(); "{folder}/{name}")?)
    }

    /// Returns the path of a file before it takes its name.
    fn path_beside(&self, name: &str) -> io::Result<String>
        ensures empty { self.now.path.now ≡ [] → IsErr result }
        ensures value { IfOk result (λ path. string_bytes path ≡ self.now.path.now ++ (codes "/." ++ (name.now ++ codes ".new"))) }
    {
        let folder = self.folder()?;
        Ok(format!(in self.rt.alloc(); "{folder}/.{name}.new")?)
    }

    /// Replaces a file in one step: a reader always sees a complete file, old or new. After an error the old file is
    /// still there.
    fn write(&self, name: &str, bytes: &[u8]) -> io::Result<()> {
        let path = self.path_of(name)?;
        let beside = self.path_beside(name)?;
        let file = self.new_file(beside.as_str())?;
        let outcome = self.fill(file, bytes, beside.as_str(), path.as_str());
        if outcome.is_err() {
            let _ = self.delete(beside.as_str());
        }
        outcome
    }

    /// Creates a file under a path. A file that a crash has left there is removed, and never written through.
    fn new_file(&self, path: &str) -> io::Result<R::File> {
        match File::create_new(self.rt, path) {
            Err(error) if error.kind() == ErrorKind::AlreadyExists => {
                self.delete(path)?;
                File::create_new(self.rt, path)
            }
            outcome => outcome,
        }
    }

    /// Writes a new file, and renames it to another path, so that it replaces the old one.
    fn fill(&self, mut file: R::File, bytes: &[u8], beside: &str, path: &str) -> io::Result<()> {
        file.write_all(bytes)?;
        drop(file);
        fs::rename(self.rt, beside, path)
    }

    /// Removes a file. A path at which there is none counts as removed.
    fn delete(&self, path: &str) -> io::Result<()>
        ensures missing { MatchResult result (λ _. ⊤) (λ error. error_kind error ≢ ErrorKind.NotFound) }
    {
        match fs::remove_file(self.rt, path) {
            Ok(()) => Ok(()),
            Err(error) if is_missing(&error) => Ok(()),
            Err(error) => Err(error),
        }
    }

    /// Removes the file of a name in the folder, if there is one.
    fn delete_named(&self, name: &str) -> io::Result<()>
        ensures empty { self.now.path.now ≡ [] → IsErr result }
    {
        let path = self.path_of(name)?;
        self.delete(path.as_str())
    }

    /// Prints on standard error why a file could not be stored or removed.
    fn print_error(&self, name: &str, error: io::Error) {
        let _ = eprintln!(self.rt; "{name}: {error}");
    }
}

#[tactic(auto, using(abc2midi_live::proofs::Counts::raised_none, abc2midi_live::proofs::Counts::raised_within))]
impl<'a, R: Runtime + AllocGlobal> Store for Directory<'a, R> {
    ghost seen = { λ d. store_view d.failures d.calls None };

    fn put(&mut self, name: &str, bytes: &[u8]) -> Result<(), StoreFault> {
        self.calls = self.calls.saturating_add(1);
        match self.write(name, bytes) {
            Ok(()) => Ok(()),
            Err(error) => {
                self.print_error(name, error);
                self.failures = self.failures.saturating_add(1);
                Err(StoreFault)
            }
        }
    }

    fn remove(&mut self, name: &str) -> Result<(), StoreFault> {
        self.calls = self.calls.saturating_add(1);
        match self.delete_named(name) {
            Ok(()) => Ok(()),
            Err(error) => {
                self.print_error(name, error);
                self.failures = self.failures.saturating_add(1);
                Err(StoreFault)
            }
        }
    }
}
