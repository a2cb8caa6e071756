//! What is to stand in a file: it is written into a draft beside the file, which takes the file's place once it is whole.
//!
//! The draft of `out` is `.out.keyed-PROCESS-NUMBER`. A process that a signal ends leaves its draft after. The next one that writes the
//! same file takes it away, since no process has its number, and leaves the drafts of those that still run.

use crate::files::write_whole;
use keyed_faults::Reason;
use std::alloc::{AllocError, Global};
use std::fs;
use std::fs::{Metadata, OpenFile, OpenOptions};
use std::io::{Error, ErrorKind};
use std::os::unix::fs::{MetadataExt, lchown};
use std::rt::Files;

// How many names are tried for a draft.
const TRIES: u32 = 1000;

// How many links are followed, as the system does.
const LINKS: u32 = 40;

// The system's error for more links.
const TOO_MANY_LINKS: i32 = 40;

// How many bytes of a file's name its draft has: a system takes 255, and others stand around them.
const LONGEST: usize = 220;

// What is said of a file that may not be written.
const NOT_WRITABLE: &str = "it may not be written: chmod u+w lets it be replaced";

// What is said where a draft is gone, or is another's.
const DRAFT_GONE: &str = "another run took its draft away: run this one again";

/// What is to stand in a file, as far as it is written.
#[derive(Drop)]
pub(crate) struct Draft<F> {
    pub file: F,
    place: Place,
}

// Where a draft is written.
#[derive(Drop)]
enum Place {
    // Into the file itself.
    Itself,
    // Into a file beside it.
    Beside(Beside),
}

// The name of a draft, and the file whose place it is to take, with what the system says of that, if it is there.
#[derive(Drop)]
struct Beside {
    name: String,
    place: String,
    replaced: Option<Metadata>,
}

impl<F: OpenFile + Drop> Draft<F> {
    /// Begins a draft of a file, with nothing in it. A link is followed to the file that it leads to, which need not be there.
    ///
    /// # Errors
    ///
    /// Returns why a file that is there may not be written, although its folder may be, or why no draft can be made.
    pub fn begin<R: Files<File = F> + AllocGlobal>(rt: &R, file: &str) -> Result<Self, Reason> {
        match fs::metadata(rt, file) {
            Ok(found) => {
                if found.is_file() {
                    check_writable(rt, file)?;
                    let place = real_name(rt, file)?;
                    Draft::begin_beside(rt, place, Some(found))
                } else {
                    Ok(Draft {
                        file: OpenOptions::new().write(true).open(rt, file)?,
                        place: Place::Itself,
                    })
                }
            }
            Err(error) if error.kind() == ErrorKind::NotFound => {
                let place = end_of_links(rt, file)?;
                Draft::begin_beside(rt, place, None)
            }
            Err(error) => Err(Reason::from(error)),
        }
    }

    // Begins a file with a name of its own beside the one that it is to replace.
    fn begin_beside<R: Files<File = F> + AllocGlobal>(
        rt: &R,
        place: String,
        replaced: Option<Metadata>,
    ) -> Result<Self, Reason> {
        let start = start_of_drafts(rt.alloc(), &place)?;
        let process = own_process(rt);
        if let Some(own) = process {
            remove_left(rt, &start, own)?;
        }
        let process = process.unwrap_or(0);
        for number in 0..TRIES {
            let name = format!(in rt.alloc(); "{start}{process}-{number}")?;
            match fs::File::create_new(rt, name.as_str()) {
                Ok(file) => {
                    return Ok(Draft {
                        file,
                        place: Place::Beside(Beside {
                            name,
                            place,
                            replaced,
                        }),
                    });
                }
                Err(error) if error.kind() == ErrorKind::AlreadyExists => {}
                Err(error) => return Err(Reason::from(error)),
            }
        }
        Err(Reason::from(Error::from(ErrorKind::AlreadyExists)))
    }

    /// Puts the draft, which is whole, in its place, with the owner and the permissions of the file that it replaces, as far as the system
    /// lets it have them.
    ///
    /// # Errors
    ///
    /// Returns why it can't take its place: then the file is as it was.
    pub fn put<R: Files<File = F>>(self, rt: &R) -> Result<(), Reason> {
        let Draft { file, place } = self;
        match place {
            Place::Itself => Ok(()),
            Place::Beside(beside) => {
                if !beside.is_named(rt, &file) {
                    return Err(Reason::from(Error::new(ErrorKind::NotFound, DRAFT_GONE)));
                }
                if let Some(replaced) = &beside.replaced {
                    beside.keep_owner(rt, &file, replaced);
                    let _ = file.set_permissions(replaced.permissions());
                }
                beside.take_place(rt)
            }
        }
    }

    /// Removes what is written.
    pub fn remove<R: Files<File = F>>(self, rt: &R) {
        let Draft { file, place } = self;
        match place {
            Place::Itself => {}
            Place::Beside(beside) => {
                if beside.is_named(rt, &file) {
                    beside.remove(rt);
                }
            }
        }
    }
}

impl Beside {
    // Whether the draft still has its name. A run that sees no process of this number, as one in another container, may have taken the draft
    // away, and a draft of its own may have the name.
    fn is_named<R: Files, F: OpenFile>(&self, rt: &R, file: &F) -> bool {
        match file.metadata() {
            Ok(own) => match fs::symlink_metadata(rt, self.name.as_str()) {
                Ok(found) => own.dev() == found.dev() && own.ino() == found.ino(),
                Err(_) => false,
            },
            Err(error) => error.kind() == ErrorKind::Unsupported,
        }
    }

    // Gives the draft the group and the owner of the file that it replaces, each where the user may.
    fn keep_owner<R: Files, F: OpenFile>(&self, rt: &R, file: &F, replaced: &Metadata) {
        if let Ok(own) = file.metadata() {
            if own.gid() != replaced.gid() {
                let _ = lchown(rt, self.name.as_str(), None, Some(replaced.gid()));
            }
            if own.uid() != replaced.uid() {
                let _ = lchown(rt, self.name.as_str(), Some(replaced.uid()), None);
            }
        }
    }

    // Has the draft take the place of the file.
    fn take_place<R: Files>(&self, rt: &R) -> Result<(), Reason> {
        match fs::rename(rt, self.name.as_str(), self.place.as_str()) {
            Ok(()) => Ok(()),
            Err(error) => {
                self.remove(rt);
                Err(Reason::from(error))
            }
        }
    }

    // Removes the draft.
    fn remove<R: Files>(&self, rt: &R) {
        let _ = fs::remove_file(rt, self.name.as_str());
    }
}

/// Puts these bytes, all of them or none, in the place of a file.
///
/// # Errors
///
/// Returns the errors of `Draft::begin` and of `Draft::put`, and that of the draft where it can't be written: then the file is as it was.
pub(crate) fn put_bytes<R: Files + AllocGlobal>(
    rt: &R,
    file: &str,
    bytes: &[u8],
) -> Result<(), Reason> {
    let mut draft = Draft::begin(rt, file)?;
    match write_whole(&mut draft.file, bytes) {
        Ok(()) => draft.put(rt),
        Err(error) => {
            draft.remove(rt);
            Err(Reason::from(error))
        }
    }
}

// Fails where a file may not be written. Its folder may let it be replaced all the same, but who took away the leave to write meant to keep it.
fn check_writable<R: Files>(rt: &R, file: &str) -> Result<(), Reason> {
    match OpenOptions::new().write(true).open(rt, file) {
        Ok(_writable) => Ok(()),
        Err(error) if error.kind() == ErrorKind::PermissionDenied => {
            Err(Reason::from(Error::new(ErrorKind::PermissionDenied, NOT_WRITABLE)))
        }
        Err(error) => Err(Reason::from(error)),
    }
}

// The name of a file after all links, so that a link stays one.
fn real_name<R: Files + AllocGlobal>(rt: &R, file: &str) -> Result<String, Reason> {
    match fs::canonicalize(rt, file) {
        Ok(path) => Ok(String::from_str(rt.alloc(), path.as_str())?),
        Err(error) if error.kind() == ErrorKind::Unsupported => {
            Ok(String::from_str(rt.alloc(), file)?)
        }
        Err(error) => Err(Reason::from(error)),
    }
}

// The name of a file that is not there, after all links that lead to it.
fn end_of_links<R: Files + AllocGlobal>(rt: &R, file: &str) -> Result<String, Reason> {
    let mut place = String::from_str(rt.alloc(), file)?;
    for _ in 0..LINKS {
        if !is_link(rt, &place) {
            return Ok(place);
        }
        place = led_to(rt, &place)?;
    }
    Err(Reason::from(Error::from_raw_os_error(TOO_MANY_LINKS)))
}

fn is_link<R: Files>(rt: &R, place: &str) -> bool {
    match fs::symlink_metadata(rt, place) {
        Ok(found) => found.is_symlink(),
        Err(_) => false,
    }
}

// Where a link leads to, which its text says from its own folder on.
fn led_to<R: Files + AllocGlobal>(rt: &R, link: &str) -> Result<String, Reason> {
    let target = fs::read_link(rt, link)?;
    let text = target.as_str();
    let folder = if text.starts_with('/') {
        ""
    } else {
        folder_of(link)
    };
    Ok(format!(in rt.alloc(); "{folder}{text}")?)
}

// The name of a file in its folder.
fn name_of(place: &str) -> &str {
    match place.rsplit_once('/') {
        Some((_, name)) => name,
        None => place,
    }
}

// The folder of a file, with its slash, or nothing where that is the one that the program runs in.
fn folder_of(place: &str) -> &str {
    place.strip_suffix(name_of(place)).unwrap_or("")
}

// What the names of all drafts of a file begin with, in its folder.
fn start_of_drafts(alloc: Global, place: &str) -> Result<String, AllocError> {
    let (folder, name) = (folder_of(place), shortened(name_of(place)));
    format!(in alloc; "{folder}.{name}.keyed-")
}

// As much of a name as leaves room for what stands around it in that of a draft. A character has at most four bytes.
fn shortened(name: &str) -> &str {
    if name.len() > LONGEST {
        for cut in 0..4 {
            if let Some((short, _)) = name.split_at_checked(LONGEST.saturating_sub(cut)) {
                return short;
            }
        }
    }
    name
}

// The number of this process, where the system tells it.
fn own_process<R: Files + AllocGlobal>(rt: &R) -> Option<u32> {
    match fs::read_link(rt, "/proc/self") {
        Ok(process) => number_of(process.as_str()),
        Err(_) => None,
    }
}

fn number_of(digits: &str) -> Option<u32> {
    match digits.parse::<u32>() {
        Ok(number) => Some(number),
        Err(_) => None,
    }
}

// Removes the drafts whose names begin so which processes left that are gone. One that can't be removed stays.
fn remove_left<R: Files + AllocGlobal>(rt: &R, start: &str, own: u32) -> Result<(), AllocError> {
    let folder = folder_of(start);
    let name = name_of(start);
    let Ok(entries) = fs::read_dir(&rt, if folder.is_empty() { "./" } else { folder }) else {
        return Ok(());
    };
    for entry in entries {
        if let Ok(entry) = entry {
            if let Some(process) = process_of(entry.file_name(), name) {
                if process == own || is_gone(rt, process)? {
                    let _ = fs::remove_file(rt, entry.path());
                }
            }
        }
    }
    Ok(())
}

// The process of a draft by its name, if it is one whose name begins so.
fn process_of(draft: &str, start: &str) -> Option<u32> {
    let (process, number) = draft.strip_prefix(start)?.split_once('-')?;
    let _number = number_of(number)?;
    number_of(process)
}

// Whether there is no process of this number.
fn is_gone<R: Files + AllocGlobal>(rt: &R, process: u32) -> Result<bool, AllocError> {
    let folder = format!(in rt.alloc(); "/proc/{process}")?;
    Ok(match fs::exists(rt, folder.as_str()) {
        Ok(exists) => !exists,
        Err(_) => false,
    })
}
