//! A file of the system as a disk. It tells its count of faults alone.
ghost use Rattle.std.specs.Prelude.{◌≡◌};
ghost use Rattle.decimal_rank.specs.Causes.{HasCause};

use crate::disks::Disk;
use decimal_rank::{Failed, count_more};
use std::fs::{self, File, OpenOptions, TryLockError};
use std::io::{self, ErrorKind};
use std::os::fd::AsRawFd;
use std::os::unix::fs::{FileExt, MetadataExt, OpenOptionsExt};
use std::path::Path;
use std::rt::Files;

/// A file that is opened at the first call, and made where it isn't there, for its owner alone. It
/// is locked while it is open: where another process has it as a disk, each call fails. A symbolic
/// link is no disk, so a path is resolved before.
#[derive(Drop)]
pub struct FileDisk<'a, R: Files<File = File>> {
    files: R,
    path: &'a str,
    file: Option<File>,
    faults: u64,
}

impl<'a, R: Files<File = File> + Drop> FileDisk<'a, R> {
    /// The file of this path. No call is made on it yet.
    pub fn new(files: R, path: &'a str) -> FileDisk<'a, R> {
        FileDisk {
            files,
            path,
            file: None,
            faults: 0,
        }
    }
}

/// Opens the file, or makes it, and locks it. Its folder is synced where it can be, so that a new
/// file outlasts a power cut.
fn open_locked<R: Files<File = File>>(files: &R, path: &str) -> io::Result<File> {
    if is_link(files, path) {
        return Err(ErrorKind::InvalidInput.into());
    }
    let file = OpenOptions::new()
        .read(true)
        .write(true)
        .create(true)
        .mode(0o600)
        .open(files, path)?;
    match file.try_lock() {
        Ok(()) => {}
        Err(TryLockError::WouldBlock) => return Err(ErrorKind::WouldBlock.into()),
        Err(TryLockError::Error(error)) => return Err(error),
    }
    read_from_the_disk(&file)?;
    match sync_folder(files, path) {
        Ok(()) => Ok(file),
        Err(error) if is_not_for_folders(error.kind()) => Ok(file),
        Err(error) => Err(error),
    }
}

/// Whether the path is a symbolic link, whose folder isn't that of its file.
fn is_link<R: Files<File = File>>(files: &R, path: &str) -> bool {
    match fs::symlink_metadata(files, path) {
        Ok(found) => found.is_symlink(),
        Err(_) => false,
    }
}

/// Has later reads come from the disk. Where a sync failed, the system may take what it holds in
/// memory for synced, and answer the next sync by Ok: a process that is started then would read
/// what no disk has.
fn read_from_the_disk(file: &File) -> io::Result<()> {
    file.sync_data()?;
    match libc::posix_fadvise(file.as_raw_fd(), 0, 0, libc::POSIX_FADV_DONTNEED) {
        0 => Ok(()),
        number => {
            let error = io::Error::from_raw_os_error(number);
            if is_unknown_advice(error.kind()) {
                Ok(())
            } else {
                Err(error)
            }
        }
    }
}

/// Whether the file's system knows no such advice.
fn is_unknown_advice(kind: ErrorKind) -> bool {
    matches!(kind, ErrorKind::InvalidInput | ErrorKind::Unsupported)
}

fn sync_folder<R: Files<File = File>>(files: &R, path: &str) -> io::Result<()> {
    let folder = match Path::new(path).parent() {
        Some(folder) if !folder.as_str().is_empty() => folder,
        _ => Path::new("."),
    };
    fs::open(files, folder)?.sync_all()
}

/// Whether a folder's sync failed since this folder can't be read, or since its file system syncs
/// no folders: then the file is a disk all the same.
fn is_not_for_folders(kind: ErrorKind) -> bool {
    matches!(
        kind,
        ErrorKind::PermissionDenied | ErrorKind::InvalidInput | ErrorKind::Unsupported
    )
}

/// The file, opened where it isn't open yet.
fn opened<'f, R: Files<File = File>>(
    files: &R,
    path: &str,
    file: &'f mut Option<File>,
) -> io::Result<&'f File> {
    if file.is_none() {
        *file = Some(open_locked(files, path)?);
    }
    match file {
        Some(file) => Ok(file),
        None => Err(ErrorKind::NotFound.into()),
    }
}

fn length_of(file: &File) -> io::Result<u64> {
    Ok(file.metadata()?.len())
}

/// What is synced in a file that no folder has any more goes with the process that has it open.
fn sync_kept(file: &File) -> io::Result<()> {
    file.sync_data()?;
    if file.metadata()?.nlink() == 0 {
        return Err(ErrorKind::NotFound.into());
    }
    Ok(())
}

/// Reads on where a read gives less, and takes an interrupted one up again.
fn read_whole(file: &File, place: u64, out: &mut [u8]) -> io::Result<()> {
    let mut done = 0;
    for _ in 0..u64::MAX {
        if done == out.len() {
            return Ok(());
        }
        match file.read_at(&mut out[done..], place.saturating_add(done as u64)) {
            Ok(0) => return Err(ErrorKind::UnexpectedEof.into()),
            Ok(count) => done += count,
            Err(error) if error.kind() == ErrorKind::Interrupted => {}
            Err(error) => return Err(error),
        }
    }
    Err(ErrorKind::TimedOut.into())
}

/// Writes on where a write takes less, and takes an interrupted one up again.
fn write_whole(file: &File, place: u64, piece: &[u8]) -> io::Result<()> {
    let mut done = 0;
    for _ in 0..u64::MAX {
        if done == piece.len() {
            return Ok(());
        }
        match file.write_at(&piece[done..], place.saturating_add(done as u64)) {
            Ok(0) => return Err(ErrorKind::WriteZero.into()),
            Ok(count) => done += count,
            Err(error) if error.kind() == ErrorKind::Interrupted => {}
            Err(error) => return Err(error),
        }
    }
    Err(ErrorKind::TimedOut.into())
}

/// What a call on the file came to, with its failure counted.
fn counted<T: Drop>(outcome: io::Result<T>, faults: &mut u64) -> Result<T, Failed>
    ensures { HasCause faults.old faults.new result }
{
    match outcome {
        Ok(value) => Ok(value),
        Err(_) => {
            *faults = count_more(*faults);
            Err(Failed)
        }
    }
}

impl<'a, R: Files<File = File> + Drop> Disk for FileDisk<'a, R> {
    ghost use Rattle.std.specs.Prelude.{None};
    ghost use Rattle.std.proofs.Common.{refl};

    ghost seen = { λ disk. record {
      content = None;
      images = λ _. ⊥;
      clock = 0;
      images_since = λ _ _. ⊥;
      faults = disk.faults;
    } };

    fn len(&mut self) -> Result<u64, Failed> {
        let opening = opened(&self.files, self.path, &mut self.file);
        let file = counted(opening, &mut self.faults)?;
        counted(length_of(file), &mut self.faults)
    }

    fn read(&mut self, place: u64, out: &mut [u8]) -> Result<(), Failed> {
        let opening = opened(&self.files, self.path, &mut self.file);
        let file = counted(opening, &mut self.faults)?;
        counted(read_whole(file, place, out), &mut self.faults)
    }

    fn write_at(&mut self, place: u64, piece: &[u8]) -> Result<(), Failed> {
        let opening = opened(&self.files, self.path, &mut self.file);
        let file = counted(opening, &mut self.faults)?;
        counted(write_whole(file, place, piece), &mut self.faults)
    }

    fn cut(&mut self, to: u64) -> Result<(), Failed> {
        let opening = opened(&self.files, self.path, &mut self.file);
        let file = counted(opening, &mut self.faults)?;
        counted(file.set_len(to), &mut self.faults)
    }

    fn sync(&mut self) -> Result<(), Failed> {
        let opening = opened(&self.files, self.path, &mut self.file);
        let file = counted(opening, &mut self.faults)?;
        counted(sync_kept(file), &mut self.faults)
    }

    fn faults(&self) -> u64 {
        self.faults
    }

    ghost tells_alike = { λ _ _. refl };

    ghost reads_as_image = { λ _. tt };

    ghost counts_now = { λ _ _ _ _ here. here };

    ghost only_now = { λ _ _ here. here };
}
