//! For tests alone: a disk in memory. Its files and folders are those that a test puts there, and it takes, renames and removes files as a
//! system does. A test can have it refuse: what lies below a name may be no new file, take no byte or have its place kept.

use std::alloc::{AllocError, Global};
use std::cell::RefCell;
use std::fs::{Metadata, OpenFile, OpenOptions};
use std::io;
use std::io::{ErrorKind, Read, Seek, SeekFrom, Write};

// The system's errors: no such file, a device that fails, no leave, a file that is there, a folder, too many open files, a device that is
// full, and a folder that is not empty.
const NO_FILE: i32 = 2;

const BROKEN: i32 = 5;

const NO_LEAVE: i32 = 13;

const IS_THERE: i32 = 17;

const IS_FOLDER: i32 = 21;

const MANY: i32 = 24;

const FULL: i32 = 28;

const NOT_EMPTY: i32 = 39;

/// What a disk refuses of a file, or of all that lies in a folder.
#[derive(Clone, Copy, PartialEq, Eq)]
pub enum Trouble {
    /// A read fails where the bytes of a file end.
    Broken,
    /// No file can be made.
    Locked,
    /// No byte can be written.
    Full,
    /// No file can take the place of another.
    Kept,
}

// A file or a folder. One that is open keeps its number under every name.
#[derive(Drop)]
struct Node {
    number: u64,
    name: String,
    bytes: Vec<u8>,
    // What it has when it is opened again, where that is something else.
    later: Option<Vec<u8>>,
    is_folder: bool,
    is_opened: bool,
    // Whether it was made, written or renamed since this was last asked.
    is_changed: bool,
}

#[derive(Drop)]
struct State {
    nodes: Vec<Node>,
    troubles: Vec<(String, Trouble)>,
    next: u64,
    // How many files can be made, and how many bytes be written.
    most_files: usize,
    room: usize,
}

/// A disk with the files and folders that a test puts there.
#[derive(Drop)]
pub struct Disk {
    alloc: Global,
    state: RefCell<State>,
}

/// A file or a folder, as it is found on a disk.
#[derive(Drop)]
pub struct Found {
    /// The whole name.
    pub name: String,
    /// The bytes of a file. A folder has none.
    pub bytes: Vec<u8>,
    /// Whether it is a folder.
    pub is_folder: bool,
}

impl Disk {
    /// A disk with nothing on it, which takes all.
    pub fn new(alloc: Global) -> Self {
        Disk {
            alloc,
            state: RefCell::new(State {
                nodes: Vec::new(alloc),
                troubles: Vec::new(alloc),
                next: 0,
                most_files: usize::MAX,
                room: usize::MAX,
            }),
        }
    }

    /// Puts a file there, in the place of one of the same name.
    ///
    /// # Errors
    ///
    /// Returns an error if a request for memory was refused.
    pub fn put(&self, name: &str, bytes: &[u8]) -> io::Result<()> {
        let mut state = self.state.try_borrow_mut()?;
        state.take_away(name);
        let number = state.make(self.alloc, name, false)?;
        if let Some(node) = state.numbered_mut(number) {
            node.bytes.extend_from_slice(bytes)?;
            node.is_changed = false;
        }
        Ok(())
    }

    /// Puts bytes after those of a file. Returns whether it is there.
    ///
    /// # Errors
    ///
    /// Returns an error if a request for memory was refused.
    pub fn put_more(&self, name: &str, bytes: &[u8]) -> io::Result<bool> {
        let mut state = self.state.try_borrow_mut()?;
        match state.named_mut(name) {
            Some(node) => {
                node.bytes.extend_from_slice(bytes)?;
                Ok(true)
            }
            None => Ok(false),
        }
    }

    /// Has a file other bytes when it is opened again, or puts more after those. Returns whether it is there.
    ///
    /// # Errors
    ///
    /// Returns an error if a request for memory was refused.
    pub fn put_later(&self, name: &str, bytes: &[u8]) -> io::Result<bool> {
        let mut state = self.state.try_borrow_mut()?;
        let Some(node) = state.named_mut(name) else {
            return Ok(false);
        };
        match &mut node.later {
            Some(later) => later.extend_from_slice(bytes)?,
            None => node.later = Some(Vec::from_slice(self.alloc, bytes)?),
        }
        Ok(true)
    }

    /// Puts a folder there.
    ///
    /// # Errors
    ///
    /// Returns an error if a request for memory was refused.
    pub fn put_folder(&self, name: &str) -> io::Result<()> {
        let mut state = self.state.try_borrow_mut()?;
        let number = state.make(self.alloc, name, true)?;
        if let Some(node) = state.numbered_mut(number) {
            node.is_changed = false;
        }
        Ok(())
    }

    /// Refuses something of a file, or of what lies in a folder.
    ///
    /// # Errors
    ///
    /// Returns an error if a request for memory was refused.
    pub fn refuse(&self, name: &str, trouble: Trouble) -> io::Result<()> {
        let mut state = self.state.try_borrow_mut()?;
        let name = String::from_str(self.alloc, name)?;
        state.troubles.push((name, trouble))?;
        Ok(())
    }

    /// Lets only so many files be made from here on.
    ///
    /// # Errors
    ///
    /// Returns an error while the disk is in use.
    pub fn let_files(&self, most: usize) -> io::Result<()> {
        self.state.try_borrow_mut()?.most_files = most;
        Ok(())
    }

    /// Lets only so many bytes be written from here on.
    ///
    /// # Errors
    ///
    /// Returns an error while the disk is in use.
    pub fn let_bytes(&self, most: usize) -> io::Result<()> {
        self.state.try_borrow_mut()?.room = most;
        Ok(())
    }

    /// The bytes of a file, if it is there.
    ///
    /// # Errors
    ///
    /// Returns an error if a request for memory was refused.
    pub fn bytes_of(&self, name: &str) -> io::Result<Option<Vec<u8>>> {
        let state = self.state.try_borrow()?;
        match state.named(name) {
            Some(node) => Ok(Some(Vec::from_slice(self.alloc, &node.bytes)?)),
            None => Ok(None),
        }
    }

    /// The names of all that is there.
    ///
    /// # Errors
    ///
    /// Returns an error if a request for memory was refused.
    pub fn names(&self) -> io::Result<Vec<String>> {
        let state = self.state.try_borrow()?;
        let mut names = Vec::new(self.alloc);
        for node in &state.nodes {
            names.push(String::from_str(self.alloc, &node.name)?)?;
        }
        Ok(names)
    }

    /// What was made, written or renamed since this was last asked, in the order in which it was made.
    ///
    /// # Errors
    ///
    /// Returns an error if a request for memory was refused.
    pub fn take_changed(&self) -> io::Result<Vec<Found>> {
        let mut state = self.state.try_borrow_mut()?;
        let mut found = Vec::new(self.alloc);
        for node in &mut state.nodes {
            if node.is_changed {
                node.is_changed = false;
                found.push(Found {
                    name: String::from_str(self.alloc, &node.name)?,
                    bytes: Vec::from_slice(self.alloc, &node.bytes)?,
                    is_folder: node.is_folder,
                })?;
            }
        }
        Ok(found)
    }

    /// Opens a file, as `Files` says.
    ///
    /// # Errors
    ///
    /// Returns the error of a system.
    pub fn open(&self, how: &OpenOptions, path: &str) -> io::Result<File<'_>> {
        let mut state = self.state.try_borrow_mut()?;
        let number = match state.named(path) {
            Some(_) if how.asks_create_new() => return Err(of_system(IS_THERE)),
            Some(node) if node.is_folder => return Err(of_system(IS_FOLDER)),
            Some(node) => node.number,
            None if how.asks_create_new() || how.asks_create() => {
                state.make_new(self.alloc, path)?
            }
            None => return Err(of_system(NO_FILE)),
        };
        let is_later = state.open_again(number);
        Ok(File {
            disk: self,
            number,
            is_later,
            at: 0,
        })
    }

    /// What is said of a file or a folder.
    ///
    /// # Errors
    ///
    /// Returns the error of a system.
    pub fn metadata(&self, path: &str) -> io::Result<Metadata> {
        let state = self.state.try_borrow()?;
        match state.named(path) {
            Some(node) if node.is_folder => Ok(Metadata::of_dir()),
            Some(node) => Ok(Metadata::of_file(node.bytes.len() as u64)),
            None => Err(of_system(NO_FILE)),
        }
    }

    /// Gives a file another name, in the place of the one that has it.
    ///
    /// # Errors
    ///
    /// Returns the error of a system.
    pub fn rename(&self, from: &str, to: &str) -> io::Result<()> {
        let mut state = self.state.try_borrow_mut()?;
        if state.refuses(to, Trouble::Kept) {
            return Err(of_system(NO_LEAVE));
        }
        let Some(number) = state.named(from).map(|node| node.number) else {
            return Err(of_system(NO_FILE));
        };
        if state.named(to).is_some_and(|node| node.is_folder) {
            return Err(of_system(IS_FOLDER));
        }
        if from != to {
            state.take_away(to);
        }
        if let Some(node) = state.numbered_mut(number) {
            node.name = String::from_str(self.alloc, to)?;
            node.is_changed = true;
        }
        Ok(())
    }

    /// Takes a file away.
    ///
    /// # Errors
    ///
    /// Returns the error of a system.
    pub fn remove_file(&self, path: &str) -> io::Result<()> {
        let mut state = self.state.try_borrow_mut()?;
        match state.named(path) {
            Some(node) if node.is_folder => Err(of_system(IS_FOLDER)),
            Some(_) => {
                state.take_away(path);
                Ok(())
            }
            None => Err(of_system(NO_FILE)),
        }
    }

    /// Makes a folder.
    ///
    /// # Errors
    ///
    /// Returns the error of a system.
    pub fn create_dir(&self, path: &str) -> io::Result<()> {
        let mut state = self.state.try_borrow_mut()?;
        if state.named(path).is_some() {
            return Err(of_system(IS_THERE));
        }
        if !state.has_folder_of(path) {
            return Err(of_system(NO_FILE));
        }
        state.make(self.alloc, path, true)?;
        Ok(())
    }

    /// Takes a folder away that has nothing in it.
    ///
    /// # Errors
    ///
    /// Returns the error of a system.
    pub fn remove_dir(&self, path: &str) -> io::Result<()> {
        let mut state = self.state.try_borrow_mut()?;
        if !state.named(path).is_some_and(|node| node.is_folder) {
            return Err(of_system(NO_FILE));
        }
        if state.nodes.iter().any(|node| is_below(&node.name, path)) {
            return Err(of_system(NOT_EMPTY));
        }
        state.take_away(path);
        Ok(())
    }
}

fn of_system(code: i32) -> io::Error {
    io::Error::from_raw_os_error(code)
}

// Whether a name lies in a folder.
fn is_below(name: &str, folder: &str) -> bool {
    match name.strip_prefix(folder) {
        Some(rest) => rest.starts_with('/'),
        None => false,
    }
}

impl State {
    fn named(&self, name: &str) -> Option<&Node> {
        self.nodes.iter().find(|node| node.name.as_str() == name)
    }

    fn named_mut(&mut self, name: &str) -> Option<&mut Node> {
        self.nodes
            .iter_mut()
            .find(|node| node.name.as_str() == name)
    }

    fn numbered(&self, number: u64) -> Option<&Node> {
        self.nodes.iter().find(|node| node.number == number)
    }

    fn numbered_mut(&mut self, number: u64) -> Option<&mut Node> {
        self.nodes.iter_mut().find(|node| node.number == number)
    }

    fn take_away(&mut self, name: &str) {
        if let Some(place) = self
            .nodes
            .iter()
            .position(|node| node.name.as_str() == name)
        {
            self.nodes.remove(place);
        }
    }

    fn refuses(&self, name: &str, trouble: Trouble) -> bool {
        self.troubles.iter().any(|refused| {
            refused.1 == trouble
                && (refused.0.as_str() == name || is_below(name, refused.0.as_str()))
        })
    }

    // Whether the folder is there in which a name lies. One that holds a file is.
    fn has_folder_of(&self, name: &str) -> bool {
        match name.rsplit_once('/') {
            Some((folder, _)) => self.nodes.iter().any(|node| {
                node.is_folder && node.name.as_str() == folder || is_below(&node.name, folder)
            }),
            None => true,
        }
    }

    fn make(&mut self, alloc: Global, name: &str, is_folder: bool) -> Result<u64, AllocError> {
        let number = self.next;
        self.nodes.push(Node {
            number,
            name: String::from_str(alloc, name)?,
            bytes: Vec::new(alloc),
            later: None,
            is_folder,
            is_opened: false,
            is_changed: true,
        })?;
        self.next = self.next.saturating_add(1);
        Ok(number)
    }

    // Makes a file, where the disk lets it be made.
    fn make_new(&mut self, alloc: Global, name: &str) -> io::Result<u64> {
        if !self.has_folder_of(name) {
            return Err(of_system(NO_FILE));
        }
        if self.refuses(name, Trouble::Locked) {
            return Err(of_system(NO_LEAVE));
        }
        if self.most_files == 0 {
            return Err(of_system(MANY));
        }
        self.most_files = self.most_files.saturating_sub(1);
        Ok(self.make(alloc, name, false)?)
    }

    // Notes that a file is opened. Returns whether it has other bytes from here on.
    fn open_again(&mut self, number: u64) -> bool {
        match self.numbered_mut(number) {
            Some(node) => {
                let is_later = node.is_opened && node.later.is_some();
                node.is_opened = true;
                is_later
            }
            None => false,
        }
    }

    fn write(&mut self, number: u64, bytes: &[u8]) -> io::Result<()> {
        let is_full = match self.numbered(number) {
            Some(node) => self.refuses(&node.name, Trouble::Full),
            None => false,
        };
        if is_full || self.room < bytes.len() {
            return Err(of_system(FULL));
        }
        self.room = self.room.saturating_sub(bytes.len());
        if let Some(node) = self.numbered_mut(number) {
            node.bytes.extend_from_slice(bytes)?;
            node.is_changed = true;
        }
        Ok(())
    }
}

/// A file that is open. It is read from its beginning on, and written after its end.
#[derive(Drop)]
pub struct File<'a> {
    disk: &'a Disk,
    number: u64,
    is_later: bool,
    at: usize,
}

impl Read for File<'_> {
    fn read(&mut self, buf: &mut [u8]) -> io::Result<usize> {
        let state = self.disk.state.try_borrow()?;
        let Some(node) = state.numbered(self.number) else {
            return Ok(0);
        };
        let bytes = match &node.later {
            Some(later) if self.is_later => later.as_slice(),
            _ => node.bytes.as_slice(),
        };
        let mut rest = bytes.get(self.at..).unwrap_or(&[]);
        if rest.is_empty() && state.refuses(&node.name, Trouble::Broken) {
            return Err(of_system(BROKEN));
        }
        let count = rest.read(buf)?;
        self.at = self.at.saturating_add(count);
        Ok(count)
    }
}

impl Write for File<'_> {
    fn write(&mut self, buf: &[u8]) -> io::Result<usize> {
        let mut state = self.disk.state.try_borrow_mut()?;
        state.write(self.number, buf)?;
        Ok(buf.len())
    }

    fn flush(&mut self) -> io::Result<()> {
        Ok(())
    }
}

impl Seek for File<'_> {
    fn seek(&mut self, _to: SeekFrom) -> io::Result<u64> {
        Err(io::Error::from(ErrorKind::Unsupported))
    }
}

impl OpenFile for File<'_> {
    fn metadata(&self) -> io::Result<Metadata> {
        Err(io::Error::from(ErrorKind::Unsupported))
    }

    fn set_len(&self, _size: u64) -> io::Result<()> {
        Err(io::Error::from(ErrorKind::Unsupported))
    }

    fn sync_all(&self) -> io::Result<()> {
        Err(io::Error::from(ErrorKind::Unsupported))
    }

    fn sync_data(&self) -> io::Result<()> {
        Err(io::Error::from(ErrorKind::Unsupported))
    }
}
