//! The files of the machine that the program runs on, of which those that are there can be kept, and which note why one failed.

ghost use Rattle.std.specs.Prelude.{◌≡◌, true, false, None};

use byte_io::{Files, HostFiles, HostWriter, Reader, StreamFault};
use std::cell::Cell;
use std::fs;
use std::fs::{File, OpenOptions};
use std::io::ErrorKind;

/// Files of which those that are there can be kept.
pub trait Keeping: Files {
    /// Whether a file that is there is kept: it can't be begun anew then.
    fn keep(&mut self, keeps: bool)
        ensures tells { Self.tells self.new ≡ Self.tells self.old }
        ensures holds { Self.holds self.new ≡ Self.holds self.old }
        ensures create { Self.can_create self.new ≡ Self.can_create self.old }
        ensures fail { Self.can_fail self.new ≡ Self.can_fail self.old };
}

/// The first file that couldn't be opened or created, by the place of its name among the words of the command line, and why.
#[derive(Clone, Copy, Debug, Drop)]
pub struct Failure {
    pub word: usize,
    pub kind: ErrorKind,
}

/// The files of the machine, and the words that name them. What they hold isn't known.
#[derive(Drop)]
pub struct MachineFiles<'r, 'w, 'f> {
    rt: &'r HostRuntime,
    words: &'w [String],
    keeps: bool,
    failure: &'f Cell<Option<Failure>>,
}

impl<'r, 'w, 'f> MachineFiles<'r, 'w, 'f> {
    /// The files that words name, with a cell for the first that fails.
    pub fn new(
        rt: &'r HostRuntime,
        words: &'w [String],
        failure: &'f Cell<Option<Failure>>,
    ) -> MachineFiles<'r, 'w, 'f> {
        MachineFiles {
            rt,
            words,
            keeps: false,
            failure,
        }
    }

    fn note(&self, name: &str, kind: ErrorKind) {
        let word = self.words.iter().position(|word| word.as_str() == name);
        if let (None, Some(word)) = (self.failure.get(), word) {
            self.failure.set(Some(Failure { word, kind }));
        }
    }
}

impl Keeping for MachineFiles<'_, '_, '_> {
    fn keep(&mut self, keeps: bool) {
        self.keeps = keeps;
    }
}

impl Files for MachineFiles<'_, '_, '_> {
    type Reader = Option<Reader<File>>;

    type Writer = Option<HostWriter>;

    ghost tells = { λ _. false };

    ghost holds = { λ _ _. None };

    ghost can_open = { λ _ _. true };

    ghost can_create = { λ _ _. true };

    ghost can_fail = { λ _ _. true };

    fn open(&self, name: &str) -> Option<Reader<File>> {
        match fs::open(self.rt, name) {
            Ok(file) => {
                if file.metadata().is_ok_and(|about| about.is_dir()) {
                    self.note(name, ErrorKind::IsADirectory);
                }
                Some(Reader(file))
            }
            Err(error) => {
                self.note(name, error.kind());
                None
            }
        }
    }

    fn create(&mut self, name: &str) -> Option<HostWriter> {
        if self.keeps && fs::symlink_metadata(self.rt, name).is_ok() {
            self.note(name, ErrorKind::AlreadyExists);
            return None;
        }
        let file = HostFiles(self.rt).create(name);
        if file.is_none() {
            self.note(name, why_not_written(self.rt, name));
        }
        file
    }

    fn close(&mut self, file: Option<HostWriter>) -> Result<(), StreamFault> {
        HostFiles(self.rt).close(file)
    }

    fn give_up(&mut self, file: Option<HostWriter>) {
        HostFiles(self.rt).give_up(file);
    }
}

/// Why a file that couldn't be created can't be. A file that isn't there stays so.
fn why_not_written(rt: &HostRuntime, name: &str) -> ErrorKind {
    let is_there = fs::symlink_metadata(rt, name).is_ok();
    match OpenOptions::new()
        .write(true)
        .create_new(!is_there)
        .open(rt, name)
    {
        Ok(_) => {
            if !is_there {
                let _ = fs::remove_file(rt, name);
            }
            ErrorKind::Other
        }
        Err(error) => error.kind(),
    }
}
