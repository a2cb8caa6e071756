//! How a table is written, as far as it is read: what is noted of its bytes on their way to the reader of CSV.
ghost use Rattle.std.specs.Prelude.{◌≡◌, ◌⊎◌, IfErr, IfOk, IfSome, IsOk, OnOk};
ghost use Rattle.std.specs.Io.KnownBytes.{Keeps};
ghost use Rattle.keyed_faults.specs.Outside.{IsApart};
ghost use Rattle.keyed_faults.specs.declared.fault.Reason.{Reason};
ghost use Rattle.keyed_files.specs.Explained.{ExplainsOpening, ExplainsPlaces};
ghost use Rattle.keyed_files.specs.Opening.{form_of, text_of_stream};
ghost use Rattle.keyed_files.specs.Reading.{text_read};
ghost use Rattle.keyed_requests.specs.declared.request.Form.{Form};
ghost use Rattle.keyed_jobs.specs.NotedStyles.{IsNoted, IsStyleBy, marks_in, watched_left};

use crate::job::Job;
use keyed_columns::Columns;
use keyed_faults::{Fault, Reason, at};
use keyed_files::{FoundBy, Opened, Stream, TableSpelling};
use keyed_requests::{Comment, Form, Heading};
use keyed_text::{Headed, Marks, Style, TextNotes};
use std::alloc::{AllocError, Global};
use std::io;
use std::io::{ErrorKind, Read};

/// A reader of a table, which notes how its text is spelled, if one wants to know.
#[derive(Drop)]
pub struct Watched<R> {
    alloc: Global,
    reader: Headed<R>,
    // None if one does not want to know. Memory that is refused for the notes is kept here: the bytes were read, and so are returned.
    notes: Result<Option<TextNotes>, AllocError>,
    // Whether the last byte is a CR, which ends a line with an LF after it or not.
    follows_cr: bool,
}

impl<R> Watched<R> {
    /// Whether the last row of the table has an end, as far as it is read.
    pub fn has_end(&self) -> bool {
        match &self.notes {
            Ok(Some(notes)) => notes.has_end(),
            Ok(None) | Err(_) => true,
        }
    }

    // Notes bytes that are read, or that there was no memory for that.
    fn note(&mut self, bytes: &[u8])
        ensures { self.new.reader ≡ self.old.reader }
    {
        if let Err(refused) = self.take(bytes) {
            self.notes = Err(refused);
        }
    }

    // Notes bytes that are read, or the end of the text where there are none. A CR that ends a line alone is noted as LF.
    fn take(&mut self, bytes: &[u8]) -> Result<(), AllocError>
        ensures { self.new.reader ≡ self.old.reader }
    {
        if let Ok(Some(notes)) = &mut self.notes {
            if self.follows_cr || bytes.contains(&b'\r') {
                let lines = with_line_feeds(self.alloc, self.follows_cr, bytes)?;
                notes.take(&lines)?;
                self.follows_cr = bytes.last() == Some(&b'\r');
            } else {
                notes.take(bytes)?;
            }
            if bytes.is_empty() {
                notes.end()?;
            }
        }
        Ok(())
    }
}

impl<R: Read> Read for Watched<R> {
    ghost remaining = { watched_left R.remaining };

    fn read(&mut self, buf: &mut [u8]) -> io::Result<usize> {
        let count = self.reader.read(buf)?;
        if !buf.is_empty() {
            self.note(first(buf, count));
        }
        Ok(count)
    }
}

// Bytes of a text with LF for each CR that no LF follows. One at their end is left to those that come next, where it stands first; at the
// end of the text there are none.
fn with_line_feeds(alloc: Global, follows_cr: bool, bytes: &[u8]) -> Result<Vec<u8>, AllocError> {
    let mut lines = Vec::new(alloc);
    let mut follows_cr = follows_cr;
    for byte in bytes {
        if follows_cr {
            lines.push(if *byte == b'\n' { b'\r' } else { b'\n' })?;
        }
        follows_cr = *byte == b'\r';
        if !follows_cr {
            lines.push(*byte)?;
        }
    }
    if follows_cr && bytes.is_empty() {
        lines.push(b'\n')?;
    }
    Ok(lines)
}

// So many bytes, or all where there are fewer.
fn first(bytes: &[u8], count: usize) -> &[u8] {
    bytes.get(..count).unwrap_or(bytes)
}

/// How the rows of a table are spelled that was read so, under the columns of a job.
///
/// # Errors
///
/// Returns as a fault of the file `NoColumn` if the header lacks a column of the key, and `NoMemory` if a request for memory was refused.
pub fn spelling_of<'a, R: Read + Drop>(
    job: &Job<'_, Columns>,
    table: &Opened<'a, Watched<R>>,
) -> Result<TableSpelling, Fault<'a>>
    ensures file { IfErr result (λ fault. fault.file ≡ table.now.file) }
    ensures why { IfErr result (λ fault.
        ExplainsPlaces table.now.source.value job.now.columns.now fault.reason ⊎ IsApart fault.reason) }
{
    let found_by = if job.groups {
        FoundBy::Cells
    } else {
        FoundBy::Key
    };
    let places = at(table.file, table.source.places(job.columns))?;
    match &table.source.get_ref().notes {
        Ok(Some(notes)) => at(
            table.file,
            TableSpelling::of_text(job.alloc, notes, job.form.has_header, &places, found_by),
        ),
        Ok(None) => Ok(TableSpelling::even(job.alloc)),
        Err(AllocError) => at(table.file, Err(AllocError)),
    }
}

/// The style of an answer that is written as a table is whose text begins in this style, and whose last row has an end or none. An answer
/// with no heading stands after other CSV, and so has no byte order mark.
pub fn style_under(heading: Heading, first_style: Style, has_end: bool) -> Style
    ensures { IsStyleBy heading first_style result }
{
    let has_mark = match heading {
        Heading::Written => first_style.has_mark,
        Heading::Omitted => false,
    };
    Style {
        has_mark,
        has_end,
        ..first_style
    }
}

/// A table in this form that is read so that one knows how it is written, and the style in which its text begins, with an end to its last
/// row. The bytes that tell it are read here: those of the first row, and of the lines above it.
///
/// # Errors
///
/// Returns as a fault of the file why it can't be opened, the error of its reader, and `NoMemory` if a request for memory was refused.
pub fn watch<'a, R: Read + Drop>(
    alloc: Global,
    form: Form,
    stream: Stream<'a, R>,
) -> Result<(Stream<'a, Watched<R>>, Style), Fault<'a>>
    ensures form { IfOk result (λ read. form_of form read.0 ≡ form_of form stream.entry) }
    ensures text { IfOk result (λ read. Keeps (text_of_stream R.remaining form stream.entry)
        (text_of_stream (watched_left R.remaining) form read.0)) }
    ensures style { IfOk result (λ read. IfSome (text_of_stream (watched_left R.remaining) form read.0)
        (IsNoted (form_of form read.0) read.1)) }
    ensures named { IfOk result (λ read. read.0.file ≡ stream.entry.file) }
    ensures opens { IfOk result (λ read. (told : Reason) → ExplainsOpening read.0.reader told
        → ExplainsOpening stream.entry.reader told) }
    ensures ready { OnOk result (IsOk stream.entry.reader) }
    ensures file { IfErr result (λ fault. fault.file ≡ stream.entry.file) }
    ensures why { IfErr result (λ fault. ExplainsOpening stream.entry.reader fault.reason) }
{
    let Stream {
        file,
        delimiter,
        reader,
    } = stream;
    let form = Form {
        delimiter: delimiter.unwrap_or(form.delimiter),
        ..form
    };
    let reader = at(file, reader)?;
    let read = at(file, watched_reader(alloc, form, reader))?;
    let (watched, style) = read;
    let stream = Stream {
        file,
        delimiter,
        reader: Ok(watched),
    };
    Ok((stream, style))
}

// The reader of a text in this form, which notes how it is spelled, and the style in which it begins.
fn watched_reader<R: Read + Drop>(
    alloc: Global,
    form: Form,
    reader: R,
) -> Result<(Watched<R>, Style), Reason>
    ensures text { IfOk result (λ read. Keeps (text_read form (R.remaining reader))
        (text_read form (watched_left R.remaining read.0))) }
    ensures style { IfOk result (λ read. IfSome (text_read form (watched_left R.remaining read.0))
        (IsNoted form read.1)) }
    ensures why { IfErr result IsApart }
{
    let marks = marks_of(form);
    let skipped = form.reading.skipped;
    match Headed::new(alloc, reader, marks, skipped) {
        Ok(read) => {
            let (reader, style) = read;
            let watched = Watched {
                alloc,
                reader,
                notes: Ok(Some(TextNotes::new(alloc, marks, skipped, style))),
                follows_cr: false,
            };
            Ok((watched, style))
        }
        Err(error) => Err(reason_of(error)),
    }
}

// The bytes that part a text in this form.
fn marks_of(form: Form) -> Marks
    ensures { result ≡ marks_in form }
{
    Marks {
        delimiter: form.delimiter.byte(),
        comment: form.reading.comment.map(Comment::byte),
    }
}

// Why a text is not read, by the error of its reader.
fn reason_of(error: io::Error) -> Reason
    ensures { IsApart result }
{
    if error.kind() == ErrorKind::OutOfMemory {
        Reason::NoMemory
    } else {
        Reason::Io(error)
    }
}

/// A table of which one does not want to know how it is written, as another table says how the answer is. No byte of it is read here.
pub fn unwatched<'a, R: Read>(alloc: Global, stream: Stream<'a, R>) -> Stream<'a, Watched<R>>
    ensures form { (form : Form) → form_of form result ≡ form_of form stream.entry }
    ensures text { (form : Form) → text_of_stream (watched_left R.remaining) form result
        ≡ text_of_stream R.remaining form stream.entry }
    ensures named { result.file ≡ stream.entry.file }
    ensures opens { (told : Reason) → ExplainsOpening result.reader told
        → ExplainsOpening stream.entry.reader told }
    ensures ready { IsOk result.reader → IsOk stream.entry.reader }
{
    let Stream {
        file,
        delimiter,
        reader,
    } = stream;
    let reader = match reader {
        Ok(reader) => Ok(unwatched_reader(alloc, reader)),
        Err(reason) => Err(reason),
    };
    Stream {
        file,
        delimiter,
        reader,
    }
}

fn unwatched_reader<R: Read>(alloc: Global, reader: R) -> Watched<R>
    ensures { watched_left R.remaining result ≡ R.remaining reader }
{
    Watched {
        alloc,
        reader: Headed::unread(alloc, reader),
        notes: Ok(None),
        follows_cr: false,
    }
}
