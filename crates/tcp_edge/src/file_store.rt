ghost use Rattle.std.specs.Prelude.{◌≡◌, IfSome};
ghost use Rattle.std.specs.declared.option.Option.TheVariants.{None};
ghost use Rattle.std.specs.Io.{ReadsAtMost};
ghost use Rattle.tcp_edge.specs.Names.{name_bytes};

use edge_io::{Got, Opened, Store, Wrote};
use std::alloc::Global;
use std::fs::{File, Files, OpenOptions};
use std::io;
use std::io::{Error, ErrorKind, Write};
use std::os::unix::fs::{FileExt, OpenOptionsExt};
use std::path::{AsPath, Path};

/// Who may use a file that is made here: its owner, to read and to write.
const OWNERS_ALONE: u32 = 0o600;

/// The folder of a name that has none.
const THIS_FOLDER: &str = ".";

/// A regular file, which is locked against every other store as long as this one has it open. It tells no content.
#[derive(Drop)]
pub struct FileStore<'a, R: Files<File = File>> {
    rt: &'a R,
    alloc: Global,
    file: Option<File>,
    // By which it was opened last.
    name: Option<Vec<u8>>,
    // How many bytes were read.
    read: u64,
    faults: u64,
}

impl<'a, R: Files<File = File>> FileStore<'a, R> {
    /// Before any call. Until it is open each call is a fault.
    pub fn new(rt: &'a R, alloc: Global) -> FileStore<'a, R>
        ensures { ⟦<FileStore<'a, R> as Store>⟧.faults result ≡ 0 }
    {
        FileStore {
            rt,
            alloc,
            file: None,
            name: None,
            read: 0,
            faults: 0,
        }
    }
}

impl<'a, R: Files<File = File>> Store for FileStore<'a, R> {
    ghost kept = { λ _. None };

    ghost left = { λ _. None };

    ghost opened = { λ s. name_bytes s.name };

    ghost faults = { λ s. s.faults };

    ghost moment = { λ _. 0 };

    ghost may_leave = { λ _ _. ⊥ };

    ghost left_since = { λ _ _ _. ⊥ };

    ghost counts_now = { λ _ _ _ _ left. left };

    ghost only_now = { λ _ _ left. left };

    /// Makes the file where there is none. What it had open before is closed; want of memory for the name is a fault.
    fn open(&mut self, name: &str) -> Opened {
        self.file = None;
        if let Some(copy) = copy_of(self.alloc, name) {
            if let Ok(file) = locked(self.rt, name) {
                self.file = Some(file);
                self.name = Some(copy);
                self.read = 0;
                return Opened::Open;
            }
        }
        self.faults = self.faults.saturating_add(1);
        Opened::Failed
    }

    fn read(&mut self, buf: &mut [u8]) -> Got {
        match read_from(&self.file, self.read, buf) {
            Ok(0) => Got::End,
            Ok(count) => {
                self.read = self.read.saturating_add(count as u64);
                Got::Bytes(count)
            }
            Err(_) => {
                self.faults = self.faults.saturating_add(1);
                Got::Failed
            }
        }
    }

    fn cut(&mut self, length: u64) -> bool {
        match cut_to(&self.file, length) {
            Ok(()) => true,
            Err(_) => {
                self.faults = self.faults.saturating_add(1);
                false
            }
        }
    }

    fn append(&mut self, bytes: &[u8]) -> Wrote {
        match write_behind(&mut self.file, bytes) {
            Ok(()) => Wrote::All,
            Err(_) => {
                self.faults = self.faults.saturating_add(1);
                Wrote::Failed
            }
        }
    }
}

/// The bytes of a name; `None` where memory is wanted for them.
fn copy_of(alloc: Global, name: &str) -> Option<Vec<u8>>
    ensures { IfSome result (λ copy. copy.items ≡ name.now) }
{
    let mut copy = Vec::new(alloc);
    copy.extend_from_slice(name.as_bytes()).ok()?;
    Some(copy)
}

/// The regular file of this name, opened and locked, with all that stands in it on the disk. What is written goes to its end.
fn locked<R: Files<File = File>>(rt: &R, name: &str) -> io::Result<File> {
    let file = OpenOptions::new()
        .read(true)
        .append(true)
        .create(true)
        .mode(OWNERS_ALONE)
        .open(rt, name)?;
    let found = file.metadata()?;
    if !found.is_file() {
        return Err(Error::from(ErrorKind::InvalidInput));
    }
    file.try_lock()?;
    file.sync_all()?;
    // It was made here, or by a host that ended before it could do this.
    if found.len() == 0 {
        sync_folder_of(rt, name)?;
    }
    Ok(file)
}

/// Has the disk know the folder's names.
fn sync_folder_of<R: Files<File = File>>(rt: &R, name: &str) -> io::Result<()> {
    match Path::new(name).parent() {
        Some(folder) if !folder.path_text().is_empty() => File::open(rt, folder)?.sync_all(),
        _ => File::open(rt, THIS_FOLDER)?.sync_all(),
    }
}

/// The file, where there is one.
fn open_file(file: &Option<File>) -> io::Result<&File> {
    match file {
        Some(file) => Ok(file),
        None => Err(Error::from(ErrorKind::NotConnected)),
    }
}

/// Reads what stands behind so many bytes.
fn read_from(file: &Option<File>, at: u64, buf: &mut [u8]) -> io::Result<usize>
    ensures { ReadsAtMost result buf.new }
{
    open_file(file)?.read_at(buf, at)
}

/// Cuts what stands behind so many bytes; the disk has it so.
fn cut_to(file: &Option<File>, length: u64) -> io::Result<()> {
    let file = open_file(file)?;
    if length < file.metadata()?.len() {
        file.set_len(length)?;
    }
    file.sync_all()
}

/// Writes behind all that stands there; the disk has it then.
fn write_behind(file: &mut Option<File>, bytes: &[u8]) -> io::Result<()> {
    match file {
        Some(file) => {
            file.write_all(bytes)?;
            file.sync_data()
        }
        None => Err(Error::from(ErrorKind::NotConnected)),
    }
}
