//! The files of the machine that the program runs on.
//!
//! A plain file is written anew beside the one whose place it takes: as `NAME.PROCESS-N.uasdisk-part`, which is synced and then
//! renamed. So whatever ends the program, and whenever, the name has the old file or the new one, whole. PROCESS is the number of
//! the process, and N the first number from 0 on under which no file stands: a file that is there is another run's or the user's,
//! and is left alone. What is no plain file (a device, a pipe, a link), has further names or may not be written, is written in
//! place, and so is a file beside which none can be made.

ghost use Rattle.std.specs.Prelude.{true, false, None};

use crate::files::Files;
use crate::streams::{Reader, Sink, StreamFault};
use std::fs::{File, Metadata};
use std::io::{ErrorKind, Write};
use std::os::unix::fs::MetadataExt;
use std::path::Path;
use std::{fs, io, process};

/// The names beside a file that are tried.
const TRIES: u32 = 1000;

/// The files of the machine that the program runs on. What they hold isn't known.
#[derive(Drop)]
pub struct HostFiles<'a>(pub &'a HostRuntime);

/// A file of the machine that is written.
#[derive(Drop)]
pub struct HostWriter {
    file: File,
    place: Place,
}

/// Where a file is written.
#[derive(Drop)]
enum Place {
    /// Under its name.
    Itself,
    /// Beside the file whose name it takes at its end.
    Beside { part: String, name: String },
}

impl Files for HostFiles<'_> {
    type Reader = Option<Reader<File>>;

    type Writer = Option<HostWriter>;

    ghost tells = { λ _. false };

    ghost holds = { λ _ _. None };

    ghost can_open = { λ _ _. true };

    ghost can_create = { λ _ _. true };

    ghost can_fail = { λ _ _. true };

    fn open(&self, name: &str) -> Option<Reader<File>> {
        fs::open(self.0, name).ok().map(Reader)
    }

    fn create(&mut self, name: &str) -> Option<HostWriter> {
        if let Some(beside) = beside(self.0, name) {
            return Some(beside);
        }
        let file = fs::create(self.0, name).ok()?;
        Some(HostWriter {
            file,
            place: Place::Itself,
        })
    }

    fn close(&mut self, file: Option<HostWriter>) -> Result<(), StreamFault> {
        let Some(HostWriter { file, place }) = file else {
            return Ok(());
        };
        let closed = match &place {
            Place::Itself => synced_in_place(&file),
            Place::Beside { part, name } => renamed(self.0, &file, part, name),
        };
        closed.map_err(|_| StreamFault::File)
    }

    fn give_up(&mut self, file: Option<HostWriter>) {
        let Some(HostWriter { place, .. }) = file else {
            return;
        };
        if let Place::Beside { part, .. } = place {
            remove(self.0, &part);
        }
    }
}

impl Sink for HostWriter {
    ghost written = { λ _. None };

    ghost can_fail = { λ _. true };

    ghost is_there = { λ _. true };

    ghost is_of = { λ _ _. true };

    fn write(&mut self, bytes: &[u8]) -> Result<(), StreamFault> {
        if self.file.write_all(bytes).is_err() || self.file.flush().is_err() {
            return Err(StreamFault::File);
        }
        Ok(())
    }
}

/// Syncs a file that was written under its name. What can't be synced, as a pipe or a terminal, has nothing to be lost.
fn synced_in_place(file: &File) -> io::Result<()> {
    match file.sync_all() {
        Err(error) if error.kind() == ErrorKind::InvalidInput => Ok(()),
        synced => synced,
    }
}

/// Syncs a file that was written beside and gives it its name. At a fault it is removed.
fn renamed(rt: &HostRuntime, file: &File, part: &str, name: &str) -> io::Result<()> {
    let renamed = file.sync_all().and_then(|()| fs::rename(rt, part, name));
    if renamed.is_err() {
        remove(rt, part);
    } else {
        sync_folder(rt, name);
    }
    renamed
}

/// Syncs the folder of a file, so that the file keeps its name when the machine stops. A folder that can't be opened or synced is
/// left to the system: the file has its name by then.
pub fn sync_folder(rt: &HostRuntime, name: &str) {
    let folder = match Path::new(name).parent() {
        Some(folder) if !folder.as_str().is_empty() => folder,
        Some(_) | None => Path::new("."),
    };
    let _ = File::open(rt, folder).and_then(|folder| folder.sync_all());
}

/// A new file beside the one of a name, with its owner and its rights; none where the name's file is to be written in place.
fn beside(rt: &HostRuntime, name: &str) -> Option<HostWriter> {
    let old = match fs::symlink_metadata(rt, name) {
        Ok(old) if is_replaceable(&old) => Some(old),
        Err(error) if error.kind() == ErrorKind::NotFound => None,
        Ok(_) | Err(_) => return None,
    };
    let name = String::from_str(rt.alloc(), name).ok()?;
    let (file, part) = new_part(rt, &name)?;
    if let Some(old) = old {
        if made_alike(rt, &file, &part, &old).is_err() {
            remove(rt, &part);
            return None;
        }
    }
    Some(HostWriter {
        file,
        place: Place::Beside { part, name },
    })
}

/// A new file beside the one of a name, and its own name. What stands there under such a name is left alone.
fn new_part(rt: &HostRuntime, name: &str) -> Option<(File, String)> {
    let process = process::id(rt.process());
    for number in 0..TRIES {
        let part = format!(in rt.alloc(); "{name}.{process}-{number}.uasdisk-part").ok()?;
        match File::create_new(rt, part.as_str()) {
            Ok(file) => return Some((file, part)),
            Err(error) if error.kind() == ErrorKind::AlreadyExists => {}
            Err(_) => return None,
        }
    }
    None
}

/// Whether a file may give its name to another: a plain one of one name that may be written.
fn is_replaceable(file: &Metadata) -> bool {
    file.is_file() && file.nlink() == 1 && !file.permissions().readonly()
}

/// Gives a file the owner and the rights of another.
fn made_alike(rt: &HostRuntime, file: &File, part: &str, old: &Metadata) -> io::Result<()> {
    let new = file.metadata()?;
    if new.uid() != old.uid() || new.gid() != old.gid() {
        std::os::unix::fs::chown(rt, part, Some(old.uid()), Some(old.gid()))?;
    }
    file.set_permissions(old.permissions())
}

/// Removes a file, where it is there.
fn remove(rt: &HostRuntime, name: &str) {
    let _ = fs::remove_file(rt, name);
}
