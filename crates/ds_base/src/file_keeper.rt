//! A keeper over a folder of the file system.
#![tactic(auto)]

ghost use Rattle.std.specs.Prelude.{◌≡◌, ◌≤◌, None, length, IfOk, OnOk, OnErr};
ghost use Rattle.ds_base.specs.Counts.{Rose};

use crate::failed::Failed;
use crate::keeper::Keeper;
use crate::mark_text::{mark_read, print_mark};
use crate::read_source::read_retrying;
use std::alloc::{AllocError, Global};
use std::fs::{DirBuilder, File, Files, OpenFile, OpenOptions, TryLockError};
use std::io::{ErrorKind, Read};
use std::marker::Model;
use std::os::unix::fs::{DirBuilderExt, OpenOptionsExt};
use std::{fs, io};

/// How many bytes a name's files have behind the folder's name: a slash, 32 digits and `.new`.
const NAME_ROOM: usize = 37;

/// How many bytes of a file are read: one more than the longest content that spells a mark.
const CONTENT_ROOM: usize = 22;

/// Where the marks lie, and the file whose lock a raise holds. Each path of a mark keeps room for the longest name.
#[derive(Drop)]
struct Paths {
    folder: String,
    kept: String,
    fresh: String,
    lock: String,
}

/// Writes the path of a name's file.
fn write_path(
    path: &mut String,
    folder: &str,
    name: &[u8; 16],
    ending: &str,
) -> Result<(), AllocError> {
    path.clear();
    path.push_str(folder)?;
    path.push('/')?;
    for byte in name {
        path.push(digit(byte / 16))?;
        path.push(digit(byte % 16))?;
    }
    path.push_str(ending)
}

/// The lower-case hex digit of a number below 16.
fn digit(value: u8) -> char {
    char::from_digit(u32::from(value), 16).unwrap_or('0')
}

impl Paths {
    fn new(alloc: Global, folder: &str) -> Result<Paths, AllocError> {
        let room = folder.len() + NAME_ROOM;
        let mut lock = String::with_capacity(alloc, room)?;
        lock.push_str(folder)?;
        lock.push_str("/lock")?;
        Ok(Paths {
            folder: String::from_str(alloc, folder)?,
            kept: String::with_capacity(alloc, room)?,
            fresh: String::with_capacity(alloc, room)?,
            lock,
        })
    }

    /// Turns to a name. It takes no memory, since the room is there.
    fn turn_to(&mut self, name: &[u8; 16]) -> Result<(), AllocError> {
        write_path(&mut self.kept, self.folder.as_str(), name, "")?;
        write_path(&mut self.fresh, self.folder.as_str(), name, ".new")
    }

    /// The folder in which the folder lies.
    fn parent(&self) -> &str {
        match self.folder.as_str().rsplit_once('/') {
            Some((parent, _)) => if parent.is_empty() { "/" } else { parent },
            None => ".",
        }
    }
}

/// Reads until the room is full or a read gives no byte.
fn read_front<F: Read>(file: &mut F, room: &mut [u8]) -> io::Result<usize>
    ensures { IfOk result (λ n. n ≤ length room.new) }
{
    let mut filled = 0;
    for _ in 0..room.len() {
        let n = read_retrying(file, &mut room[filled..])?;
        if n == 0 {
            break;
        }
        filled += n;
    }
    Ok(filled)
}

/// The mark that a file says, 0 where there is no file. Anything but a plain file is a fault, so that a pipe doesn't make
/// the call wait and a link leads nowhere.
fn read_mark<R: Files>(files: &R, path: &str) -> io::Result<u64> {
    let plain = match fs::symlink_metadata(files, path) {
        Ok(metadata) => metadata.is_file(),
        Err(e) if e.kind() == ErrorKind::NotFound => return Ok(0),
        Err(e) => return Err(e),
    };
    if !plain {
        return Err(ErrorKind::InvalidData.into());
    }
    let mut file = File::open(files, path)?;
    let mut room = [0; CONTENT_ROOM];
    let n = read_front(&mut file, &mut room)?;
    match mark_read(&room[..n]) {
        Some(mark) => Ok(mark),
        None => Err(ErrorKind::InvalidData.into()),
    }
}

/// Makes what was changed in a folder durable.
fn sync_folder<R: Files>(files: &R, path: &str) -> io::Result<()> {
    File::open(files, path)?.sync_all()
}

/// Makes the folder unless it exists, open to its owner alone, so that it stays.
fn make_folder<R: Files>(files: &R, paths: &Paths) -> io::Result<()> {
    match DirBuilder::new()
        .mode(0o700)
        .create(files, paths.folder.as_str())
    {
        Ok(()) => {}
        Err(e) if e.kind() == ErrorKind::AlreadyExists => {}
        Err(e) => return Err(e),
    }
    sync_folder(files, paths.parent())
}

/// A new file under this path, open to its owner alone. A file or a link that was left there is removed, and not followed.
fn new_file<R: Files>(files: &R, path: &str) -> io::Result<R::File> {
    match fs::remove_file(files, path) {
        Ok(()) => {}
        Err(e) if e.kind() == ErrorKind::NotFound => {}
        Err(e) => return Err(e),
    }
    OpenOptions::new()
        .write(true)
        .create_new(true)
        .mode(0o600)
        .open(files, path)
}

/// Puts a file that says the mark in the place of the name's file. Once it answers `Ok`, a stop of the machine leaves the
/// new file; before, it leaves the old file or the new one.
fn write_mark<R: Files>(files: &R, paths: &Paths, mark: u64) -> io::Result<()> {
    let mut file = new_file(files, paths.fresh.as_str())?;
    print_mark(&mut file, mark)?;
    file.sync_all()?;
    drop(file);
    fs::rename(files, paths.fresh.as_str(), paths.kept.as_str())?;
    sync_folder(files, paths.folder.as_str())
}

/// The file whose lock a raise holds, made unless it is there.
fn lock_file<R: Files>(files: &R, path: &str) -> io::Result<R::File> {
    match OpenOptions::new()
        .write(true)
        .create_new(true)
        .mode(0o600)
        .open(files, path)
    {
        Ok(file) => return Ok(file),
        Err(e) if e.kind() == ErrorKind::AlreadyExists => {}
        Err(e) => return Err(e),
    }
    if fs::symlink_metadata(files, path)?.is_file() {
        File::open(files, path)
    } else {
        Err(ErrorKind::InvalidData.into())
    }
}

/// Takes the lock of an open file. It doesn't wait: where another open of the file holds the lock it is an error.
fn take_lock(file: &File) -> io::Result<()> {
    match file.try_lock() {
        Ok(()) => Ok(()),
        Err(TryLockError::WouldBlock) => Err(ErrorKind::WouldBlock.into()),
        Err(TryLockError::Error(e)) => Err(e),
    }
}

/// The mark that was told or raised last for a name.
#[derive(Drop)]
struct Told {
    name: [u8; 16],
    mark: u64,
}

/// The mark that was told for a name, if one was.
fn told_mark(told: &[Told], name: &[u8; 16]) -> Option<u64> {
    told.iter()
        .find(|entry| entry.name == *name)
        .map(|entry| entry.mark)
}

/// Notes the mark that was told or raised for a name.
fn note_mark(told: &mut Vec<Told>, name: &[u8; 16], mark: u64) -> Result<(), AllocError> {
    for entry in told.iter_mut() {
        if entry.name == *name {
            entry.mark = mark;
            return Ok(());
        }
    }
    told.push(Told { name: *name, mark })?;
    Ok(())
}

/// A keeper over a folder, with one file a name. Each error of the file system raises the count of faults and is `Failed`. It
/// doesn't tell its marks to contracts.
///
/// The name of a file is the 16 bytes as 32 lower-case hex digits, and its content is the mark in decimal digits, with or
/// without a line feed after them. Where the folder or the file is missing the mark is 0. Any other content is `Failed`,
/// also a number with zeros before it or above 2^64 - 1, and so is anything that isn't a plain file.
///
/// A raise that answered `Ok` outlives a stop of the machine: the mark is written to a new file, which is synced and put
/// in the place of the old one, and then the folder is synced. The first raise makes the folder, in a folder that exists.
///
/// Of two programs over one folder only one raises a mark from where both read it: a raise holds the exclusive lock of the
/// folder's file `lock` (it never waits for it), reads the mark again, and is `Failed` where another program holds the lock,
/// or where the mark isn't the one that this keeper told or raised last for the name. The lock is let go before the raise
/// returns, and goes with the process.
#[derive(Drop)]
pub struct FileKeeper<R: Files<File = File> + Drop> {
    files: R,
    paths: Paths,
    told: Vec<Told>,
    has_folder: bool,
    faults: u64,
}

impl<R: Files<File = File> + Drop> Model for FileKeeper<R> {
    ghost use Rattle.ds_base.specs.Edge.{Folder};

    ghost Value = { Folder };

    ghost use Rattle.ds_base.specs.Inside.{folder_of};

    ghost view = { folder_of };
}

impl<R: Files<File = File> + Drop> FileKeeper<R> {
    /// A keeper over this folder, whose name ends with no slash. It takes the memory for the paths of all names, and
    /// touches no file.
    pub fn new(alloc: Global, files: R, folder: &str) -> Result<FileKeeper<R>, AllocError>
        ensures { IfOk result (λ keeper. keeper.faults ≡ 0) }
    {
        Ok(FileKeeper {
            files,
            paths: Paths::new(alloc, folder)?,
            told: Vec::new(alloc),
            has_folder: false,
            faults: 0,
        })
    }

    fn read(&mut self, name: &[u8; 16]) -> io::Result<u64>
        ensures { self.new.faults ≡ self.old.faults }
    {
        self.paths.turn_to(name)?;
        let mark = read_mark(&self.files, self.paths.kept.as_str())?;
        note_mark(&mut self.told, name, mark)?;
        Ok(mark)
    }

    /// Reads the mark again and puts the greater of it and `to` in its place. The caller holds the lock.
    fn write_locked(&mut self, name: &[u8; 16], to: u64) -> io::Result<()>
        ensures { self.new.faults ≡ self.old.faults }
    {
        let mark = read_mark(&self.files, self.paths.kept.as_str())?;
        if told_mark(&self.told, name).is_some_and(|told| told != mark) {
            return Err(ErrorKind::InvalidData.into());
        }
        let raised = mark.max(to);
        note_mark(&mut self.told, name, mark)?;
        write_mark(&self.files, &self.paths, raised)?;
        note_mark(&mut self.told, name, raised)?;
        Ok(())
    }

    fn write(&mut self, name: &[u8; 16], to: u64) -> io::Result<()>
        ensures { self.new.faults ≡ self.old.faults }
    {
        self.paths.turn_to(name)?;
        if !self.has_folder {
            make_folder(&self.files, &self.paths)?;
            self.has_folder = true;
        }
        let lock = lock_file(&self.files, self.paths.lock.as_str())?;
        take_lock(&lock)?;
        let written = self.write_locked(name, to);
        let released = lock.unlock();
        written?;
        released
    }

    fn fail(&mut self) -> Failed
        ensures rose { Rose self.old.faults self.new.faults }
        ensures faults { self.old.faults ≤ self.new.faults }
    {
        self.faults = self.faults.saturating_add(1);
        Failed
    }
}

impl<R: Files<File = File> + Drop> Keeper for FileKeeper<R> {
    ghost faults = { λ k. k.faults };

    ghost tells = { λ _. None };

    fn mark(&mut self, name: &[u8; 16]) -> Result<u64, Failed>
        ensures faults { self.old.faults ≤ self.new.faults }
        ensures err { OnErr result (Rose self.old.faults self.new.faults) }
        ensures faultless { OnOk result (self.new.faults ≡ self.old.faults) }
    {
        match self.read(name) {
            Ok(mark) => Ok(mark),
            Err(_) => Err(self.fail()),
        }
    }

    fn raise(&mut self, name: &[u8; 16], to: u64) -> Result<(), Failed>
        ensures faults { self.old.faults ≤ self.new.faults }
        ensures err { OnErr result (Rose self.old.faults self.new.faults) }
        ensures faultless { OnOk result (self.new.faults ≡ self.old.faults) }
    {
        match self.write(name, to) {
            Ok(()) => Ok(()),
            Err(_) => Err(self.fail()),
        }
    }
}
