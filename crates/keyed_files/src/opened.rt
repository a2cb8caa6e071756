//! Files whose headers are read.
ghost use Rattle.std.specs.Prelude.{◌≡◌, IfErr, IfOk, IsOk, Ok, OnOk};
ghost use Rattle.keyed_faults.specs.Outside.{IsApart};
ghost use Rattle.keyed_columns.specs.ChangedColumns.{marked_names};
ghost use Rattle.keyed_files.specs.Explained.{ExplainsBoth, ExplainsNamingAnew, ExplainsNewNames};
ghost use Rattle.keyed_files.specs.Explained.{ExplainsOpening};
ghost use Rattle.keyed_files.specs.Gone.{IsGoneRead, IsTurned};
ghost use Rattle.keyed_columns.specs.Keys.{AreChangeColumns, AreChangedColumnsBy, AreColumnsBy, AreJoinColumns};
ghost use Rattle.keyed_columns.specs.Names.{compared};
ghost use Rattle.keyed_columns.specs.Spelled.{IsSpelledAs};
ghost use Rattle.keyed_columns.specs.declared.content.Content.TheVariants.{Rows};
ghost use Rattle.keyed_files.specs.Gone.{IsGoneRead};
ghost use Rattle.keyed_files.specs.Opening.{IsNamedAnew, IsOpened, IsRenamed, first_header, headers_of};
ghost use Rattle.keyed_files.specs.Opening.{next_header};

use crate::source::Source;
use keyed_columns::{
    ColumnChanges, Columns, Content, JoinColumns, changed_columns, columns_of, join_columns,
    key_names, marked_names,
};
use keyed_faults::{Fault, Reason, at};
use keyed_requests::{Delimiter, Direction, Form, Settings};
use keyed_rows::Cells;
use std::alloc::Global;
use std::io::Read;

/// A file by its name, with the byte between its cells, where that is not the one of the form, and with what its bytes are read from, or
/// why it can't be opened.
#[derive(Drop)]
pub struct Stream<'a, R> {
    pub file: &'a str,
    pub delimiter: Option<Delimiter>,
    pub reader: Result<R, Reason>,
}

/// A table whose header is read.
#[derive(Drop)]
pub struct Opened<'a, R> {
    pub file: &'a str,
    pub source: Box<Source<R>>,
}

impl<'a, R> Opened<'a, R> {
    /// The names of the columns.
    pub fn header(&self) -> &Cells
        ensures { result.now ≡ self.now.source.value.header.names }
    {
        self.source.names()
    }

    /// Gives the columns of a first table the names which they have in the other tables: those of the key, and then those that are renamed.
    ///
    /// # Errors
    ///
    /// Returns as a fault of the file the errors of `rename_key`.
    pub fn rename(&mut self, alloc: Global, settings: Settings<'_>) -> Result<(), Fault<'a>>
        ensures named { OnOk result (IsNamedAnew settings.entry self.old.source.value self.new.source.value) }
        ensures same { self.new ≡ record self.old { source = self.new.source } }
        ensures file { IfErr result (λ fault. fault.file ≡ self.old.file) }
        ensures why { IfErr result
            (λ fault. ExplainsNamingAnew settings.entry self.old.source.value fault.reason) }
    {
        self.rename_key(alloc, settings.key)?;
        self.rename_key(alloc, settings.renames)?;
        Ok(())
    }

    /// Gives the columns of a first table that are named, as those of a key are, the names which they have in the other tables.
    ///
    /// # Errors
    ///
    /// Returns as a fault of the file the errors of `key_names`; `NoColumn` if the header lacks a column that gets another name,
    /// `RepeatedColumn` if it has one more than once, and `NamedTwice` if another column has the name.
    pub fn rename_key(&mut self, alloc: Global, key: Option<&str>) -> Result<(), Fault<'a>>
        ensures renamed { OnOk result (IsRenamed key.entry self.old.source.value self.new.source.value) }
        ensures same { self.new ≡ record self.old { source = self.new.source } }
        ensures file { IfErr result (λ fault. fault.file ≡ self.old.file) }
        ensures why { IfErr result
            (λ fault. ExplainsNewNames key.entry self.old.source.value fault.reason) }
    {
        match key {
            Some(text) => {
                let names = at(self.file, key_names(alloc, text))?;
                at(self.file, self.source.rename(&names))
            }
            None => Ok(()),
        }
    }
}

impl<'a, R> Opened<'a, R> {
    /// Has the header say which columns go where changes are made in a direction: backward, those that came.
    pub fn turn(&mut self, direction: Direction)
        ensures same { IsTurned direction self.old.source.value self.new.source.value }
        ensures file { self.new ≡ record self.old { source = self.new.source } }
    {
        match direction {
            Direction::Forward => {}
            Direction::Backward => self.source.turn(),
        }
    }
}

impl<'a, R: Read + Drop> Opened<'a, R> {
    /// Reads the header of a table or of changes.
    ///
    /// # Errors
    ///
    /// Returns why the file can't be opened, or the error of `Source::open`, as a fault of the file.
    pub fn new(
        alloc: Global,
        form: Form,
        content: Content,
        stream: Stream<'a, R>,
    ) -> Result<Self, Fault<'a>>
        ensures opened { IfOk result (IsOpened R.remaining form content stream.entry) }
        ensures named { IfOk result (λ opened. opened.file ≡ stream.entry.file) }
        ensures gone { IfOk result (IsGoneRead R.remaining form content stream.entry) }
        ensures ready { OnOk result (IsOk stream.entry.reader) }
        ensures file { IfErr result (λ fault. fault.file ≡ stream.entry.file) }
        ensures why { IfErr result (λ fault. ExplainsOpening stream.entry.reader fault.reason) }
    {
        let file = stream.file;
        let form = Form {
            delimiter: stream.delimiter.unwrap_or(form.delimiter),
            ..form
        };
        let reader = at(file, stream.reader)?;
        let source = at(file, Source::open(alloc, reader, form, content))?;
        Ok(Opened { file, source })
    }
}

/// Two tables, or a table and the changes to be made to it.
#[derive(Drop)]
pub struct Two<'a, R> {
    pub first: Opened<'a, R>,
    pub next: Opened<'a, R>,
}

impl<'a, R> Two<'a, R> {
    /// The columns of both, in the order of the first header and then of the next one.
    ///
    /// # Errors
    ///
    /// Returns the errors of `columns_of`, as a fault of the first file.
    pub fn columns(&self, alloc: Global, key: Option<&str>) -> Result<Columns, Fault<'a>>
        ensures columns { IfOk result (AreColumnsBy key.entry (headers_of self.now) (headers_of self.now)) }
        ensures file { IfErr result (λ fault. fault.file ≡ self.now.first.file) }
        ensures why { IfErr result (λ fault. IsApart fault.reason) }
    {
        let headers = [self.first.header(), self.next.header()];
        at(self.first.file, columns_of(alloc, key, &headers))
    }

    /// The columns of the changes from the first to the next one: those of the next one in its order, and then those that it lacks.
    ///
    /// # Errors
    ///
    /// Returns the errors of `columns_of`, as a fault of the first file.
    pub fn change_columns(&self, alloc: Global, key: Option<&str>) -> Result<Columns, Fault<'a>>
        ensures columns { IfOk result
            (AreChangeColumns key.entry (first_header self.now) (next_header self.now)) }
        ensures file { IfErr result (λ fault. fault.file ≡ self.now.first.file) }
        ensures why { IfErr result (λ fault. IsApart fault.reason) }
    {
        let key = self.columns(alloc, key)?.key;
        let headers = [self.next.header(), self.first.header()];
        at(self.first.file, Columns::new(alloc, key, &headers))
    }

    /// The names of these columns, each with the mark of what became of it.
    ///
    /// # Errors
    ///
    /// Returns want of memory, as a fault of the next file.
    pub fn marked_names(&self, alloc: Global) -> Result<Cells, Fault<'a>>
        ensures marked { IfOk result
            (λ marked. marked ≡ marked_names (first_header self.now) (next_header self.now)) }
        ensures file { IfErr result (λ fault. fault.file ≡ self.now.next.file) }
        ensures why { IfErr result (λ fault. IsApart fault.reason) }
    {
        let marked = marked_names(alloc, self.first.header(), self.next.header());
        at(self.next.file, marked)
    }

    /// The columns of the table that the next one, which is of changes, makes of the first, with a heading that spells them as the first
    /// one does.
    ///
    /// # Errors
    ///
    /// Returns the errors of `columns_of`, as a fault of the first file.
    pub fn changed_columns(&self, alloc: Global, key: Option<&str>) -> Result<Columns, Fault<'a>>
        ensures columns { IfOk result (AreChangedColumnsBy key.entry (first_header self.now)
            (next_header self.now) self.now.next.source.value.header.gone) }
        ensures spelled { IfOk result (IsSpelledAs self.now.first.source.value.header.spelling.names
            self.now.first.source.value.header.spelling.spelled) }
        ensures file { IfErr result (λ fault. fault.file ≡ self.now.first.file) }
        ensures why { IfErr result (λ fault. IsApart fault.reason) }
    {
        let key = self.columns(alloc, key)?.key;
        let (old, changes) = (self.first.header(), self.next.header());
        let columns = changed_columns(alloc, key, old, changes, self.next.source.gone());
        let columns = at(self.first.file, columns)?;
        let spelling = self.first.source.spelling();
        at(self.first.file, columns.spell_as(alloc, spelling))
    }

    /// The columns of each, for a join of both.
    ///
    /// # Errors
    ///
    /// Returns the errors of `join_columns`, as a fault of the first file.
    pub fn join_columns(&self, alloc: Global, key: Option<&str>) -> Result<JoinColumns, Fault<'a>>
        ensures columns { IfOk result
            (AreJoinColumns key.entry (first_header self.now) (next_header self.now)) }
        ensures file { IfErr result (λ fault. fault.file ≡ self.now.first.file) }
        ensures why { IfErr result (λ fault. IsApart fault.reason) }
    {
        let columns = join_columns(alloc, key, self.first.header(), self.next.header());
        at(self.first.file, columns)
    }

    /// What became of the columns from the first to the next one.
    pub fn column_changes(&self) -> ColumnChanges<'_>
        ensures { (result.before.now, result.after.now)
            ≡ compared self.now.first.source.value.header.names self.now.next.source.value.header.names }
    {
        ColumnChanges::new(self.first.header(), self.next.header())
    }
}

impl<'a, R: Read + Drop> Two<'a, R> {
    /// Reads the header of a table, and then that of another or of changes.
    ///
    /// # Errors
    ///
    /// Returns the first fault of `Opened::new`.
    pub fn new(
        alloc: Global,
        form: Form,
        content: Content,
        first: Stream<'a, R>,
        next: Stream<'a, R>,
    ) -> Result<Self, Fault<'a>>
        ensures first { IfOk result (λ two. IsOpened R.remaining form Rows first.entry two.first) }
        ensures next { IfOk result (λ two. IsOpened R.remaining form content next.entry two.next) }
        ensures first_named { IfOk result (λ two. two.first.file ≡ first.entry.file) }
        ensures next_named { IfOk result (λ two. two.next.file ≡ next.entry.file) }
        ensures gone { IfOk result (λ two. IsGoneRead R.remaining form content next.entry two.next) }
        ensures first_ready { OnOk result (IsOk first.entry.reader) }
        ensures next_ready { OnOk result (IsOk next.entry.reader) }
        ensures why { IfErr result (ExplainsBoth first.entry next.entry) }
    {
        let first = Opened::new(alloc, form, Content::Rows, first)?;
        let next = Opened::new(alloc, form, content, next)?;
        Ok(Two { first, next })
    }
}
