//! For tests alone: a process in memory. Its words, variables, files and standard input are what a test gives it, and what it prints and
//! says is kept.

ghost use Rattle.std.specs.Prelude.{◌≡◌, ◌+◌, IfOk, string_len};
ghost use Rattle.std.specs.Io.{WritesAtMost};

use crate::disk::{Disk, File};
use std::alloc::{Allocator, Global};
use std::cell::{Cell, RefCell};
use std::env::FillError;
use std::fmt::{Display, Write as WriteText};
use std::fs::{Metadata, OpenOptions};
use std::io;
use std::io::{BufRead, ErrorKind, IsTerminal, Lines, Write};
use std::rt::{Clock, Env, Files};
use std::time::Duration;

/// What a standard output leads to.
#[derive(Clone, Copy, PartialEq, Eq)]
pub enum Sink {
    /// What takes all.
    Pipe,
    /// A terminal, which takes all.
    Terminal,
    /// A device that is full.
    Full,
    /// A pipe that its reader has left.
    Left,
}

/// What a process finds around it, beside its files.
#[derive(Clone, Copy)]
pub struct World<'a> {
    /// The words of its command line, the program's name first. Their bytes may be no UTF-8.
    pub words: &'a [Vec<u8>],
    /// The variable `NO_COLOR`, if it is set.
    pub no_color: Option<&'a [u8]>,
    /// The variable `COLUMNS`, if it is set.
    pub columns: Option<&'a [u8]>,
    /// The bytes of the standard input.
    pub stdin: &'a [u8],
    /// The standard output.
    pub stdout: Sink,
    /// Whether the standard error is a terminal.
    pub has_terminal: bool,
    /// How many thousandths of a second are from one look at the clock to the next.
    pub step: u64,
}

/// A process with what it is given, and what it has said so far.
#[derive(Drop)]
pub struct Process<'a> {
    alloc: Global,
    world: World<'a>,
    disk: &'a Disk,
    looks: Cell<u64>,
    printed: RefCell<String>,
    said: RefCell<String>,
}

impl<'a> Process<'a> {
    /// A process in this world that has said nothing, and whose files are those of a disk.
    pub fn new(alloc: Global, world: World<'a>, disk: &'a Disk) -> Self {
        Process {
            alloc,
            world,
            disk,
            looks: Cell::new(0),
            printed: RefCell::new(String::new(alloc)),
            said: RefCell::new(String::new(alloc)),
        }
    }

    /// The standard output, with nothing on it.
    pub fn output(&self) -> Output {
        Output {
            bytes: Vec::new(self.alloc),
            sink: self.world.stdout,
        }
    }

    /// The standard error, as far as it is or is no terminal.
    pub fn errors(&self) -> Errors {
        Errors {
            has_terminal: self.world.has_terminal,
        }
    }

    /// What stands on the standard output beside what was written on `output`, and on the standard error.
    pub fn into_texts(self) -> (String, String) {
        let Process {
            alloc: _alloc,
            world: _world,
            disk: _disk,
            looks: _looks,
            printed,
            said,
        } = self;
        (printed.into_inner(), said.into_inner())
    }
}

// The system's errors: a device that is full, and a pipe that its reader has left.
const FULL: i32 = 28;

const LEFT: i32 = 32;

impl Sink {
    // Why it takes no byte, if it takes none.
    fn refusal(self) -> Option<io::Error> {
        match self {
            Sink::Pipe | Sink::Terminal => None,
            Sink::Full => Some(io::Error::from_raw_os_error(FULL)),
            Sink::Left => Some(io::Error::from_raw_os_error(LEFT)),
        }
    }
}

// Puts a value after a text, and an end after it.
fn put<D: Display + Drop>(text: &RefCell<String>, value: D, end: &str) -> io::Result<()> {
    let mut text = text.try_borrow_mut()?;
    write!(*text, "{value}{end}")?;
    Ok(())
}

impl Alloc for Process<'_> {
    type A = Global;

    fn alloc(&self) -> Global {
        self.alloc
    }
}

impl Print for Process<'_> {
    fn print<D: Display + Drop>(&self, value: D) -> io::Result<()> {
        match self.world.stdout.refusal() {
            Some(error) => Err(error),
            None => put(&self.printed, value, ""),
        }
    }

    fn println<D: Display + Drop>(&self, value: D) -> io::Result<()> {
        match self.world.stdout.refusal() {
            Some(error) => Err(error),
            None => put(&self.printed, value, "\n"),
        }
    }

    fn write_all(&self, _bytes: &[u8]) -> io::Result<()> {
        Err(io::Error::from(ErrorKind::Unsupported))
    }
}

impl Eprint for Process<'_> {
    fn eprint<D: Display + Drop>(&self, value: D) -> io::Result<()> {
        put(&self.said, value, "")
    }

    fn eprintln<D: Display + Drop>(&self, value: D) -> io::Result<()> {
        put(&self.said, value, "\n")
    }
}

impl Clock for Process<'_> {
    fn monotonic(&self) -> io::Result<Duration> {
        let looks = self.looks.get();
        self.looks.set(looks.saturating_add(1));
        Ok(Duration::from_millis(looks.saturating_mul(self.world.step)))
    }

    fn since_1970(&self) -> io::Result<Duration> {
        Err(io::Error::from(ErrorKind::Unsupported))
    }
}

// Copies bytes to the start of a buffer, if there are any and it is long enough.
fn fill(bytes: Option<&[u8]>, buf: &mut [u8]) -> Result<usize, FillError>
    ensures { WritesAtMost result buf.new }
{
    let Some(bytes) = bytes else {
        return Err(FillError::NotPresent);
    };
    if buf.len() < bytes.len() {
        return Err(FillError::TooLong);
    }
    buf[..bytes.len()].copy_from_slice(bytes);
    Ok(bytes.len())
}

impl Env for Process<'_> {
    fn arg(&self, i: usize, buf: &mut [u8]) -> Result<usize, FillError> {
        match self.world.words.get(i) {
            Some(word) => fill(Some(word), buf),
            None => fill(None, buf),
        }
    }

    fn var(&self, name: &str, buf: &mut [u8]) -> Result<usize, FillError> {
        match name {
            "NO_COLOR" => fill(self.world.no_color, buf),
            "COLUMNS" => fill(self.world.columns, buf),
            _ => Err(FillError::NotPresent),
        }
    }

    fn var_at(&self, _i: usize, _buf: &mut [u8]) -> Result<usize, FillError> {
        Err(FillError::NotPresent)
    }
}

impl<'a> Input for Process<'a> {
    type Reader = &'a [u8];

    fn read_line<A: Allocator + Clone>(&self, buf: &mut String<A>) -> io::Result<usize>
        ensures ok { IfOk result (λ n. string_len buf.new ≡ string_len buf.old + n) }
    {
        self.reader().read_line(buf)
    }

    fn lines<A: Allocator>(&self, alloc: A) -> Lines<&'a [u8], A> {
        self.reader().lines(alloc)
    }

    fn reader(&self) -> &'a [u8] {
        self.world.stdin
    }
}

impl<'a> Files for Process<'a> {
    type File = File<'a>;

    type Dir = &'a [u8];

    fn open_file(&self, how: &OpenOptions, path: &str) -> io::Result<File<'a>> {
        self.disk.open(how, path)
    }

    fn open_dir(&self, _path: &str) -> io::Result<&'a [u8]> {
        Err(io::Error::from(ErrorKind::Unsupported))
    }

    fn metadata(&self, path: &str) -> io::Result<Metadata> {
        self.disk.metadata(path)
    }

    fn symlink_metadata(&self, path: &str) -> io::Result<Metadata> {
        self.disk.metadata(path)
    }

    fn copy(&self, _from: &str, _to: &str) -> io::Result<u64> {
        Err(io::Error::from(ErrorKind::Unsupported))
    }

    fn rename(&self, from: &str, to: &str) -> io::Result<()> {
        self.disk.rename(from, to)
    }

    fn remove_file(&self, path: &str) -> io::Result<()> {
        self.disk.remove_file(path)
    }

    fn create_dir(&self, path: &str) -> io::Result<()> {
        self.disk.create_dir(path)
    }

    fn remove_dir(&self, path: &str) -> io::Result<()> {
        self.disk.remove_dir(path)
    }

    fn remove_dir_all<B: Allocator>(&self, _alloc: B, _path: &str) -> io::Result<()> {
        Err(io::Error::from(ErrorKind::Unsupported))
    }
}

/// The standard output of a process, and what it took.
#[derive(Drop)]
pub struct Output {
    /// The bytes that were written.
    pub bytes: Vec<u8>,
    sink: Sink,
}

impl Write for Output {
    fn write(&mut self, buf: &[u8]) -> io::Result<usize> {
        match self.sink.refusal() {
            Some(error) => Err(error),
            None => {
                self.bytes.extend_from_slice(buf)?;
                Ok(buf.len())
            }
        }
    }

    fn flush(&mut self) -> io::Result<()> {
        Ok(())
    }
}

impl IsTerminal for Output {
    fn is_terminal(&self) -> bool {
        self.sink == Sink::Terminal
    }
}

/// The standard error of a process, as far as it is or is no terminal.
#[derive(Clone, Copy)]
pub struct Errors {
    has_terminal: bool,
}

impl IsTerminal for Errors {
    fn is_terminal(&self) -> bool {
        self.has_terminal
    }
}
