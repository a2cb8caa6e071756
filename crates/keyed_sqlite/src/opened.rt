//! A file that is open, of which some bytes are given before those that are read of it, or whose bytes are all given.

use std::fs::{Metadata, OpenFile, Permissions};
use std::io;
use std::io::{ErrorKind, Read, Seek, SeekFrom, Write};

/// A file, and the bytes that are given before its own. Where there is no file, they are all.
#[derive(Drop)]
pub struct Opened<F> {
    given: Vec<u8>,
    // How many of them are read.
    at: usize,
    file: Option<F>,
}

impl<F> Opened<F> {
    /// A file of which these bytes were read already.
    pub fn begun(given: Vec<u8>, file: F) -> Self {
        Opened {
            given,
            at: 0,
            file: Some(file),
        }
    }

    /// These bytes and no file.
    pub fn of_text(given: Vec<u8>) -> Self {
        Opened {
            given,
            at: 0,
            file: None,
        }
    }

    // The file, where bytes can be written and places be sought.
    fn writable(&mut self) -> io::Result<&mut F> {
        match &mut self.file {
            Some(file) if self.given.is_empty() => Ok(file),
            _ => Err(io::Error::from(ErrorKind::Unsupported)),
        }
    }

    fn file(&self) -> io::Result<&F> {
        match &self.file {
            Some(file) => Ok(file),
            None => Err(io::Error::from(ErrorKind::Unsupported)),
        }
    }
}

// One read gives both, as the file alone would. Where it fails behind bytes that are given, so does the next one.
impl<F: Read> Read for Opened<F> {
    fn read(&mut self, buf: &mut [u8]) -> io::Result<usize> {
        let mut rest = self.given.get(self.at..).unwrap_or(&[]);
        let count = rest.read(buf)?;
        self.at = self.at.saturating_add(count);
        let room = &mut buf[count..];
        if room.is_empty() {
            return Ok(count);
        }
        match &mut self.file {
            Some(file) => match file.read(room) {
                Ok(more) => Ok(count + more),
                Err(error) if count == 0 => Err(error),
                Err(_) => Ok(count),
            },
            None => Ok(count),
        }
    }
}

impl<F: Write> Write for Opened<F> {
    fn write(&mut self, bytes: &[u8]) -> io::Result<usize> {
        self.writable()?.write(bytes)
    }

    fn flush(&mut self) -> io::Result<()> {
        self.writable()?.flush()
    }
}

impl<F: Seek> Seek for Opened<F> {
    fn seek(&mut self, to: SeekFrom) -> io::Result<u64> {
        self.writable()?.seek(to)
    }
}

impl<F: OpenFile> OpenFile for Opened<F> {
    fn metadata(&self) -> io::Result<Metadata> {
        self.file()?.metadata()
    }

    fn set_len(&self, size: u64) -> io::Result<()> {
        self.file()?.set_len(size)
    }

    fn sync_all(&self) -> io::Result<()> {
        self.file()?.sync_all()
    }

    fn sync_data(&self) -> io::Result<()> {
        self.file()?.sync_data()
    }

    fn set_permissions(&self, permissions: Permissions) -> io::Result<()> {
        self.file()?.set_permissions(permissions)
    }
}
