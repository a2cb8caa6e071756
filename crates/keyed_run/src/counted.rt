//! A runtime whose files, and whose standard input, are counted line by line as they are read, and streams that the line which says so
//! makes room for. Its SQLite files are read as the texts of their tables.

ghost use Rattle.std.specs.Prelude.{◌≡◌, ◌+◌, IfOk, string_len};

use crate::progress::ProgressLine;
use keyed_sqlite::{Databases, Opened};
use std::alloc::{Allocator, Global};
use std::fmt::Display;
use std::fs::{Metadata, OpenFile, OpenOptions, Permissions};
use std::io;
use std::io::{BufRead, IsTerminal, Lines, Read, Seek, SeekFrom, Write};
use std::path::PathBuf;
use std::rt::{Clock, Files};

/// A runtime, the line that says how far its files are read, and how its SQLite files are. What it says on its standard error is said when
/// that line is gone.
#[derive(Drop)]
pub struct CountedRuntime<'p, 'r, R> {
    pub rt: &'r R,
    pub line: &'p ProgressLine<'r, R>,
    pub databases: &'p Databases,
}

/// A file or a standard input that is counted as it is read.
#[derive(Drop)]
pub struct Counted<'p, 'r, R, F> {
    line: &'p ProgressLine<'r, R>,
    file: F,
}

impl<R: Clock + Eprint, F: Read> Read for Counted<'_, '_, R, F> {
    ghost remaining = { λ counted. F.remaining counted.file };

    fn read(&mut self, buf: &mut [u8]) -> io::Result<usize> {
        let count = self.file.read(buf)?;
        self.line.note(first(buf, count));
        Ok(count)
    }
}

// So many bytes, or all where there are fewer.
fn first(bytes: &[u8], count: usize) -> &[u8] {
    bytes.get(..count).unwrap_or(bytes)
}

// Whoever takes bytes from the buffer reads them uncounted: rows are read by `read`.
impl<R: Clock + Eprint, F: BufRead> BufRead for Counted<'_, '_, R, F> {
    ghost consumable_len = { λ counted. F.consumable_len counted.file };

    fn fill_buf(&mut self) -> io::Result<&[u8]> {
        self.file.fill_buf()
    }

    fn consume(&mut self, amount: usize) {
        self.file.consume(amount)
    }
}

impl<R, F: Write> Write for Counted<'_, '_, R, F> {
    ghost contents = { λ counted. F.contents counted.file };

    fn write(&mut self, bytes: &[u8]) -> io::Result<usize> {
        self.file.write(bytes)
    }

    fn flush(&mut self) -> io::Result<()> {
        self.file.flush()
    }
}

impl<R, F: Seek> Seek for Counted<'_, '_, R, F> {
    ghost stream_position = { λ counted. F.stream_position counted.file };

    ghost stream_bytes = { λ counted. F.stream_bytes counted.file };

    fn seek(&mut self, to: SeekFrom) -> io::Result<u64> {
        self.file.seek(to)
    }
}

impl<R, F: OpenFile> OpenFile for Counted<'_, '_, R, F> {
    fn metadata(&self) -> io::Result<Metadata> {
        self.file.metadata()
    }

    fn set_len(&self, size: u64) -> io::Result<()> {
        self.file.set_len(size)
    }

    fn sync_all(&self) -> io::Result<()> {
        self.file.sync_all()
    }

    fn sync_data(&self) -> io::Result<()> {
        self.file.sync_data()
    }

    fn set_permissions(&self, permissions: Permissions) -> io::Result<()> {
        self.file.set_permissions(permissions)
    }
}

impl<R: Eprint> Eprint for CountedRuntime<'_, '_, R> {
    fn eprint<D: Display + Drop>(&self, value: D) -> io::Result<()> {
        self.line.clear();
        self.rt.eprint(value)
    }

    fn eprintln<D: Display + Drop>(&self, value: D) -> io::Result<()> {
        self.line.clear();
        self.rt.eprintln(value)
    }
}

impl<R: AllocGlobal> Alloc for CountedRuntime<'_, '_, R> {
    type A = Global;

    fn alloc(&self) -> Global {
        self.rt.alloc()
    }
}

impl<'p, 'r, R: Input + Clock + Eprint> Input for CountedRuntime<'p, 'r, R> {
    type Reader = Counted<'p, 'r, R, R::Reader>;

    fn read_line<A: Allocator + Clone>(&self, buf: &mut String<A>) -> io::Result<usize>
        ensures ok { IfOk result (λ n. string_len buf.new ≡ string_len buf.old + n) }
    {
        self.rt.read_line(buf)
    }

    fn lines<A: Allocator>(&self, alloc: A) -> Lines<Counted<'p, 'r, R, R::Reader>, A> {
        self.reader().lines(alloc)
    }

    fn reader(&self) -> Counted<'p, 'r, R, R::Reader> {
        Counted {
            line: self.line,
            file: self.rt.reader(),
        }
    }
}

impl<'p, 'r, R: Files + Clock + Eprint> Files for CountedRuntime<'p, 'r, R> {
    type File = Counted<'p, 'r, R, Opened<R::File>>;

    type Dir = R::Dir;

    fn open_file(
        &self,
        how: &OpenOptions,
        path: &str,
    ) -> io::Result<Counted<'p, 'r, R, Opened<R::File>>> {
        Ok(Counted {
            line: self.line,
            file: self.databases.open(self.rt, how, path)?,
        })
    }

    fn open_dir(&self, path: &str) -> io::Result<R::Dir> {
        self.rt.open_dir(path)
    }

    fn metadata(&self, path: &str) -> io::Result<Metadata> {
        self.rt.metadata(path)
    }

    fn symlink_metadata(&self, path: &str) -> io::Result<Metadata> {
        self.rt.symlink_metadata(path)
    }

    fn copy(&self, from: &str, to: &str) -> io::Result<u64> {
        self.rt.copy(from, to)
    }

    fn rename(&self, from: &str, to: &str) -> io::Result<()> {
        self.rt.rename(from, to)
    }

    fn remove_file(&self, path: &str) -> io::Result<()> {
        self.rt.remove_file(path)
    }

    fn create_dir(&self, path: &str) -> io::Result<()> {
        self.rt.create_dir(path)
    }

    fn remove_dir(&self, path: &str) -> io::Result<()> {
        self.rt.remove_dir(path)
    }

    fn remove_dir_all<B: Allocator>(&self, alloc: B, path: &str) -> io::Result<()> {
        self.rt.remove_dir_all(alloc, path)
    }

    fn canonicalize<B: Allocator>(&self, alloc: B, path: &str) -> io::Result<PathBuf<B>> {
        self.rt.canonicalize(alloc, path)
    }

    fn read_link<B: Allocator>(&self, alloc: B, path: &str) -> io::Result<PathBuf<B>> {
        self.rt.read_link(alloc, path)
    }

    fn lchown(&self, path: &str, uid: Option<u32>, gid: Option<u32>) -> io::Result<()> {
        self.rt.lchown(path, uid, gid)
    }
}

/// An output that is written when the line is gone. Where it is a terminal, as it may be that of the line, the line does not come again: it
/// would stand in the midst of rows.
#[derive(Drop)]
pub struct ClearedOutput<'p, 'r, 'w, R, W> {
    line: &'p ProgressLine<'r, R>,
    output: &'w mut W,
    is_terminal: bool,
}

impl<'p, 'r, 'w, R, W: IsTerminal> ClearedOutput<'p, 'r, 'w, R, W> {
    /// The output, beside a line that says how far the run has come.
    pub fn new(line: &'p ProgressLine<'r, R>, output: &'w mut W) -> Self {
        let is_terminal = output.is_terminal();
        ClearedOutput {
            line,
            output,
            is_terminal,
        }
    }
}

impl<R: Eprint, W: Write> Write for ClearedOutput<'_, '_, '_, R, W> {
    fn write(&mut self, bytes: &[u8]) -> io::Result<usize> {
        if self.is_terminal {
            self.line.end();
        } else {
            self.line.clear();
        }
        self.output.write(bytes)
    }

    fn flush(&mut self) -> io::Result<()> {
        self.output.flush()
    }
}
