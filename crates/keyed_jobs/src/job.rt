//! What the steps of a command share, and how they read tables.
ghost use Rattle.std.specs.Prelude.{◌≡◌, ◌++◌, ◌∷◌, ◌⊎◌, [], IfErr, IfOk, None, OnOk, false, is_none, true};
ghost use Rattle.keyed_requests.specs.AnswerForm.{in_style};
ghost use Rattle.keyed_columns.specs.declared.content.Content.TheVariants as content;
ghost use Rattle.keyed_files.specs.Reading.{ReadsRest, ReadsRows};
ghost use Rattle.keyed_tables.specs.Arranged.{noted};
ghost use Rattle.keyed_jobs.specs.ChangesRead.{PairsRows, PartsChanges, PartsRest, ReadsChanges};
ghost use Rattle.keyed_jobs.specs.ChangesRead.{come_by, gone_by};
ghost use Rattle.keyed_jobs.specs.FileOrder.{NotesBoth, NotesRows, OfKeys, begun_keys, noted_with};
ghost use Rattle.keyed_jobs.specs.FileOrder.{placed_with};
ghost use Rattle.keyed_files.specs.Explained.{ExplainsRows};
ghost use Rattle.keyed_jobs.specs.Unread.{ExplainsChanges, ExplainsGathering, ExplainsInputs, ExplainsTable};
ghost use Rattle.keyed_jobs.specs.Unread.{ExplainsTables, ExplainsUnread};
ghost use Rattle.keyed_jobs.specs.TablesRead.{Gathers, IsUnordered, ReadsTable};

use crate::row_order::RowOrder;
use eob_joins::Change;
use keyed_columns::{Columns, JoinColumns};
use keyed_faults::{Fault, Reason, at};
use keyed_files::{Opened, Places, Sign, SignedRow, Source, TableSpelling, Two};
use keyed_requests::{Form, Layout, Look, Settings};
use keyed_rows::{Group, Key, ReadRow, Release};
use keyed_tables::{Order, Rows, grouped_rows, paired, unique_rows};
use keyed_text::Style;
use std::alloc::{AllocError, Global};
use std::io::Read;

/// The rows of a table, by key.
pub type Table = Rows<Key, Group>;

/// Changes to a table, by key.
pub type Changes = Rows<Key, Change<Group>>;

/// What the steps of a command share: how its tables are written, how rows are told for which there is none, whether rows with the same key
/// are a group, the columns, and the order in which rows come out.
#[derive(Drop)]
pub struct Job<'c, C> {
    pub alloc: Global,
    pub form: Form,
    pub look: Look,
    pub groups: bool,
    pub columns: &'c C,
    pub order: Order,
    pub row_order: RowOrder,
    /// How the rows are spelled that stand in the table whose style the answer has.
    pub spelling: TableSpelling,
}

impl<'c, C> Job<'c, C> {
    /// A job on whole tables, of which none is read yet.
    pub fn new(alloc: Global, settings: Settings<'_>, columns: &'c C) -> Self
        ensures form { result.form ≡ settings.entry.form }
        ensures groups { result.groups ≡ settings.entry.groups }
        ensures columns { result.columns.now ≡ columns.now }
        ensures unordered { settings.entry.keeps_order ≡ false → IsUnordered result }
        ensures order { noted result.order ≡ begun_keys settings.entry.keeps_order }
    {
        Job {
            alloc,
            form: settings.form,
            look: settings.look,
            groups: settings.groups,
            columns,
            order: order_of(alloc, settings),
            row_order: row_order_of(alloc, settings),
            spelling: TableSpelling::even(alloc),
        }
    }

    /// A job on parts of tables whose keys are strictly increasing.
    pub fn sorted(alloc: Global, layout: Layout<'_>, columns: &'c C) -> Self
        ensures form { result.form ≡ layout.entry.form }
        ensures columns { result.columns.now ≡ columns.now }
        ensures unordered { IsUnordered result }
    {
        Job {
            alloc,
            form: layout.form,
            look: Look::PLAIN,
            groups: false,
            columns,
            order: Order::by_key(),
            row_order: RowOrder::by_cells(),
            spelling: TableSpelling::even(alloc),
        }
    }

    /// The same job, with an answer that is written in a style, but for rows that have a spelling of their own.
    pub fn in_style(self, style: Style, spelling: TableSpelling) -> Self
        ensures { result ≡ record self.entry { form = in_style style self.entry.form; spelling = spelling } }
    {
        Job {
            form: self.form.in_style(style),
            spelling,
            ..self
        }
    }

    /// A job that writes rows as they stand, in a form of their own and under columns of their own.
    pub fn to_write<'d, D>(&self, form: Form, columns: &'d D) -> Job<'d, D>
        ensures form { result.form ≡ form }
        ensures columns { result.columns.now ≡ columns.now }
    {
        Job {
            alloc: self.alloc,
            form,
            look: self.look,
            groups: self.groups,
            columns,
            order: Order::by_key(),
            row_order: RowOrder::by_cells(),
            spelling: TableSpelling::even(self.alloc),
        }
    }

    /// The same job on a table whose rows do not come out.
    pub fn unordered(&self) -> Self
        ensures groups { result.groups ≡ self.now.groups }
        ensures columns { result.columns.now ≡ self.now.columns.now }
    {
        Job {
            alloc: self.alloc,
            form: self.form,
            look: self.look,
            groups: self.groups,
            columns: self.columns,
            order: Order::by_key(),
            row_order: RowOrder::by_cells(),
            spelling: TableSpelling::even(self.alloc),
        }
    }

    /// Reads the rows of a table, and gathers them by key.
    ///
    /// # Errors
    ///
    /// Returns as a fault of the file `NoColumn` if the header lacks a column of the key, `RepeatedKey` if a key repeats that may not, and
    /// the errors of `Source::read_row`.
    pub fn read_table<'a, R: Read + Drop>(
        &mut self,
        columns: &Columns,
        table: &mut Opened<'a, R>,
    ) -> Result<Table, Fault<'a>>
        ensures table { IfOk result (λ rows.
            ReadsTable R.remaining self.old.groups columns.now table.old.source.value rows.pairs.items) }
        ensures notes { OnOk result (OfKeys R.remaining content.Rows columns.now table.old.source.value
            (λ keys. noted self.new.order ≡ noted_with (noted self.old.order) keys)) }
        ensures same { self.new ≡ record self.old { order = self.new.order; row_order = self.new.row_order } }
        ensures unordered { OnOk result (IsUnordered self.old → IsUnordered self.new) }
        ensures header { table.new.source.value.header ≡ table.old.source.value.header }
        ensures named { table.new.file ≡ table.old.file }
        ensures file { IfErr result (λ fault. fault.file ≡ table.old.file) }
        ensures why { IfErr result (λ fault. ExplainsTable R.remaining self.old.groups columns.now
            table.old.source.value fault.reason) }
    {
        let mut rows = Vec::new(self.alloc);
        at(
            table.file,
            read_rows(table, columns, &mut self.order, &mut rows),
        )?;
        self.take_rows(table.file, rows)
    }

    // Reads the rows of a table that is merged into the one before it: each that this one lacks comes out after the row that it follows.
    fn read_beside<'a, R: Read + Drop>(
        &mut self,
        columns: &Columns,
        table: &mut Opened<'a, R>,
    ) -> Result<Table, Fault<'a>>
        ensures table { IfOk result (λ rows.
            ReadsTable R.remaining self.old.groups columns.now table.old.source.value rows.pairs.items) }
        ensures notes { OnOk result (OfKeys R.remaining content.Rows columns.now table.old.source.value
            (λ keys. noted self.new.order ≡ placed_with (noted self.old.order) keys)) }
        ensures same { self.new ≡ record self.old { order = self.new.order; row_order = self.new.row_order } }
        ensures unordered { OnOk result (IsUnordered self.old → IsUnordered self.new) }
        ensures named { table.new.file ≡ table.old.file }
        ensures file { IfErr result (λ fault. fault.file ≡ table.old.file) }
        ensures why { IfErr result (λ fault. ExplainsTable R.remaining self.old.groups columns.now
            table.old.source.value fault.reason) }
    {
        let mut order = self.order.begun(self.alloc);
        let mut rows = Vec::new(self.alloc);
        at(table.file, read_rows(table, columns, &mut order, &mut rows))?;
        self.order = at(table.file, Order::placed(self.alloc, &self.order, &order))?;
        self.take_rows(table.file, rows)
    }

    // The rows of a file by key, which are noted in their order.
    fn take_rows<'a>(&mut self, file: &'a str, rows: Vec<ReadRow>) -> Result<Table, Fault<'a>>
        ensures table { IfOk result (λ table. Gathers self.old.groups rows.items table.pairs.items) }
        ensures same { self.new ≡ record self.old { row_order = self.new.row_order } }
        ensures by_cells { is_none self.old.row_order.files ≡ true → is_none self.new.row_order.files ≡ true }
        ensures file { IfErr result (λ fault. fault.file ≡ file.entry) }
        ensures why { IfErr result (λ fault. ExplainsGathering self.old.groups rows.items fault.reason) }
    {
        at(file, self.row_order.note_file(self.alloc, &rows))?;
        at(file, self.gather(rows))
    }

    // The rows by key, of which no two have the same unless they are groups. A key that repeats and may not is an error. Rows last, since a
    // run ends with its answer.
    fn gather(&self, rows: Vec<ReadRow>) -> Result<Table, Reason>
        ensures table { IfOk result (λ table. Gathers self.now.groups rows.items table.pairs.items) }
        ensures why { IfErr result (ExplainsGathering self.now.groups rows.items) }
    {
        if self.groups {
            Ok(grouped_rows(self.alloc, rows, Release::AtExit)?)
        } else {
            Ok(unique_rows(self.alloc, rows, Release::AtExit)?)
        }
    }

    // The rows of changes by key, those that go beside those that come, which are noted in their order.
    fn take_changes<'a>(
        &mut self,
        file: &'a str,
        gone: Vec<ReadRow>,
        come: Vec<ReadRow>,
    ) -> Result<Changes, Fault<'a>>
        ensures changes { IfOk result
            (λ changes. PairsRows self.old.groups gone.items come.items changes.pairs.items) }
        ensures same { self.new ≡ record self.old { row_order = self.new.row_order } }
        ensures by_cells { is_none self.old.row_order.files ≡ true → is_none self.new.row_order.files ≡ true }
        ensures file { IfErr result (λ fault. fault.file ≡ file.entry) }
        ensures why { IfErr result (λ fault. ExplainsGathering self.old.groups gone.items fault.reason
            ⊎ ExplainsGathering self.old.groups come.items fault.reason) }
    {
        at(file, self.row_order.note_file(self.alloc, &gone))?;
        at(file, self.row_order.note_file(self.alloc, &come))?;
        at(file, self.pair(gone, come))
    }

    // Rows that go and rows that come, by key.
    fn pair(&self, gone: Vec<ReadRow>, come: Vec<ReadRow>) -> Result<Changes, Reason>
        ensures changes { IfOk result
            (λ changes. PairsRows self.now.groups gone.items come.items changes.pairs.items) }
        ensures why { IfErr result (λ told. ExplainsGathering self.now.groups gone.items told
            ⊎ ExplainsGathering self.now.groups come.items told) }
    {
        let gone_by_key = self.gather(gone)?;
        let come_by_key = self.gather(come)?;
        let changes = paired(self.alloc, gone_by_key, come_by_key)?;
        Ok(changes)
    }
}

impl Job<'_, JoinColumns> {
    /// Reads the rows of both tables, each under its columns.
    ///
    /// # Errors
    ///
    /// Returns the first fault of `read_table`.
    pub fn read_sides<'a, R: Read + Drop>(
        &mut self,
        sides: &mut Two<'a, R>,
    ) -> Result<(Table, Table), Fault<'a>>
        ensures left { IfOk result (λ pair. ReadsTable R.remaining self.old.groups self.old.columns.now.left
            sides.old.first.source.value pair.0.pairs.items) }
        ensures right { IfOk result (λ pair. ReadsTable R.remaining self.old.groups self.old.columns.now.right
            sides.old.next.source.value pair.1.pairs.items) }
        ensures notes { OnOk result (NotesBoth R.remaining content.Rows self.old.columns.now.left
            self.old.columns.now.right sides.old.first.source.value sides.old.next.source.value
            noted_with (noted self.old.order) (noted self.new.order)) }
        ensures same { self.new ≡ record self.old { order = self.new.order; row_order = self.new.row_order } }
        ensures unordered { OnOk result (IsUnordered self.old → IsUnordered self.new) }
        ensures first_named { sides.new.first.file ≡ sides.old.first.file }
        ensures next_named { sides.new.next.file ≡ sides.old.next.file }
        ensures why { IfErr result (ExplainsTables R.remaining self.old.groups self.old.columns.now.left
            self.old.columns.now.right sides.old) }
    {
        let columns = self.columns;
        let left = self.read_table(&columns.left, &mut sides.first)?;
        let right = self.read_table(&columns.right, &mut sides.next)?;
        Ok((left, right))
    }
}

impl Job<'_, Columns> {
    /// Reads the rows of both tables.
    ///
    /// # Errors
    ///
    /// Returns the first fault of `read_table`.
    pub fn read_both<'a, R: Read + Drop>(
        &mut self,
        tables: &mut Two<'a, R>,
    ) -> Result<(Table, Table), Fault<'a>>
        ensures first { IfOk result (λ pair. ReadsTable R.remaining self.old.groups self.old.columns.now
            tables.old.first.source.value pair.0.pairs.items) }
        ensures next { IfOk result (λ pair. ReadsTable R.remaining self.old.groups self.old.columns.now
            tables.old.next.source.value pair.1.pairs.items) }
        ensures notes { OnOk result
            (NotesBoth R.remaining content.Rows self.old.columns.now self.old.columns.now
            tables.old.first.source.value tables.old.next.source.value
            noted_with (noted self.old.order) (noted self.new.order)) }
        ensures same { self.new ≡ record self.old { order = self.new.order; row_order = self.new.row_order } }
        ensures unordered { OnOk result (IsUnordered self.old → IsUnordered self.new) }
        ensures first_header { tables.new.first.source.value.header ≡ tables.old.first.source.value.header }
        ensures next_header { tables.new.next.source.value.header ≡ tables.old.next.source.value.header }
        ensures first_named { tables.new.first.file ≡ tables.old.first.file }
        ensures next_named { tables.new.next.file ≡ tables.old.next.file }
        ensures why { IfErr result (ExplainsTables R.remaining self.old.groups self.old.columns.now
            self.old.columns.now tables.old) }
    {
        let first = self.read_table(self.columns, &mut tables.first)?;
        let next = self.read_table(self.columns, &mut tables.next)?;
        Ok((first, next))
    }

    /// Reads the rows of two versions of a table that are merged: those that only the second has come out after the rows that they follow
    /// there.
    ///
    /// # Errors
    ///
    /// Returns the first fault of `read_table`.
    pub fn read_merged<'a, R: Read + Drop>(
        &mut self,
        sides: &mut Two<'a, R>,
    ) -> Result<(Table, Table), Fault<'a>>
        ensures ours { IfOk result (λ pair. ReadsTable R.remaining self.old.groups self.old.columns.now
            sides.old.first.source.value pair.0.pairs.items) }
        ensures theirs { IfOk result (λ pair. ReadsTable R.remaining self.old.groups self.old.columns.now
            sides.old.next.source.value pair.1.pairs.items) }
        ensures notes { OnOk result
            (NotesBoth R.remaining content.Rows self.old.columns.now self.old.columns.now
            sides.old.first.source.value sides.old.next.source.value
            placed_with (noted self.old.order) (noted self.new.order)) }
        ensures same { self.new ≡ record self.old { order = self.new.order; row_order = self.new.row_order } }
        ensures unordered { OnOk result (IsUnordered self.old → IsUnordered self.new) }
        ensures first_header { sides.new.first.source.value.header ≡ sides.old.first.source.value.header }
        ensures first_named { sides.new.first.file ≡ sides.old.first.file }
        ensures next_named { sides.new.next.file ≡ sides.old.next.file }
        ensures why { IfErr result (ExplainsTables R.remaining self.old.groups self.old.columns.now
            self.old.columns.now sides.old) }
    {
        let ours = self.read_table(self.columns, &mut sides.first)?;
        let theirs = self.read_beside(self.columns, &mut sides.next)?;
        Ok((ours, theirs))
    }

    /// Reads the rows of a table, and the changes to be made to it.
    ///
    /// # Errors
    ///
    /// Returns the first fault of `read_table`, of the table and then of the changes, and for these `NoSign` if a row begins with no sign.
    pub fn read_to_change<'a, R: Read + Drop>(
        &mut self,
        inputs: &mut Two<'a, R>,
    ) -> Result<(Table, Changes), Fault<'a>>
        ensures table { IfOk result (λ pair. ReadsTable R.remaining self.old.groups self.old.columns.now
            inputs.old.first.source.value pair.0.pairs.items) }
        ensures changes { IfOk result (λ pair. ReadsChanges R.remaining self.old.groups self.old.columns.now
            inputs.old.next.source.value pair.1.pairs.items) }
        ensures notes { OnOk result
            (NotesBoth R.remaining content.Changes self.old.columns.now self.old.columns.now
            inputs.old.first.source.value inputs.old.next.source.value
            noted_with (noted self.old.order) (noted self.new.order)) }
        ensures same { self.new ≡ record self.old { order = self.new.order; row_order = self.new.row_order } }
        ensures unordered { OnOk result (IsUnordered self.old → IsUnordered self.new) }
        ensures first_header { inputs.new.first.source.value.header ≡ inputs.old.first.source.value.header }
        ensures first_named { inputs.new.first.file ≡ inputs.old.first.file }
        ensures next_named { inputs.new.next.file ≡ inputs.old.next.file }
        ensures why { IfErr result
            (ExplainsInputs R.remaining self.old.groups self.old.columns.now inputs.old) }
    {
        let rows = self.read_table(self.columns, &mut inputs.first)?;
        let changes = self.read_changes(&mut inputs.next)?;
        Ok((rows, changes))
    }

    // Reads the rows of changes, and pairs them by key: those that go with those that come.
    fn read_changes<'a, R: Read + Drop>(
        &mut self,
        changes: &mut Opened<'a, R>,
    ) -> Result<Changes, Fault<'a>>
        ensures changes { IfOk result (λ read. ReadsChanges R.remaining self.old.groups self.old.columns.now
            changes.old.source.value read.pairs.items) }
        ensures notes { OnOk result
            (OfKeys R.remaining content.Changes self.old.columns.now changes.old.source.value
            (λ keys. noted self.new.order ≡ noted_with (noted self.old.order) keys)) }
        ensures same { self.new ≡ record self.old { order = self.new.order; row_order = self.new.row_order } }
        ensures unordered { OnOk result (IsUnordered self.old → IsUnordered self.new) }
        ensures named { changes.new.file ≡ changes.old.file }
        ensures file { IfErr result (λ fault. fault.file ≡ changes.old.file) }
        ensures why { IfErr result (λ fault. ExplainsChanges R.remaining self.old.groups self.old.columns.now
            changes.old.source.value fault.reason) }
    {
        let mut gone = Vec::new(self.alloc);
        let mut come = Vec::new(self.alloc);
        let outcome = read_signed(changes, self.columns, &mut self.order, &mut gone, &mut come);
        at(changes.file, outcome)?;
        self.take_changes(changes.file, gone, come)
    }
}

fn order_of(alloc: Global, settings: Settings<'_>) -> Order
    ensures { noted result ≡ begun_keys settings.entry.keeps_order }
{
    if settings.keeps_order {
        Order::by_file(alloc)
    } else {
        Order::by_key()
    }
}

// The order of rows in a group is that of the files where rows come out in this order.
fn row_order_of(alloc: Global, settings: Settings<'_>) -> RowOrder
    ensures { settings.entry.keeps_order ≡ false → is_none result.files ≡ true }
{
    if settings.keeps_order && settings.groups {
        RowOrder::by_file(alloc)
    } else {
        RowOrder::by_cells()
    }
}

/// Reads the rows after those that are there.
///
/// # Errors
///
/// Returns `NoColumn` if the header lacks a column of the key, and the errors of `Source::read_row`.
pub fn read_rows<R: Read + Drop>(
    table: &mut Opened<'_, R>,
    columns: &Columns,
    order: &mut Order,
    rows: &mut Vec<ReadRow>,
) -> Result<(), Reason>
    ensures read { OnOk result
        (ReadsRows R.remaining columns.now table.old.source.value rows.old.items rows.new.items) }
    ensures notes { OnOk result
        (NotesRows rows.old.items rows.new.items (noted order.old) (noted order.new)) }
    ensures unordered { OnOk result (noted order.old ≡ None → noted order.new ≡ None) }
    ensures header { table.new.source.value.header ≡ table.old.source.value.header }
    ensures named { table.new.file ≡ table.old.file }
    ensures why { IfErr result (ExplainsUnread R.remaining columns.now table.old.source.value) }
{
    let places = table.source.places(columns)?;
    read_rest(&mut table.source, &places, order, rows)?;
    Ok(())
}

// Reads the rows that a source has left, after those that are there. No input has more of them than a number counts.
fn read_rest<R: Read + Drop>(
    source: &mut Source<R>,
    places: &Places,
    order: &mut Order,
    rows: &mut Vec<ReadRow>,
) -> Result<(), Reason>
    ensures read { OnOk result (ReadsRest R.remaining places.now source.old rows.old.items rows.new.items) }
    ensures notes { OnOk result
        (NotesRows rows.old.items rows.new.items (noted order.old) (noted order.new)) }
    ensures unordered { OnOk result (noted order.old ≡ None → noted order.new ≡ None) }
    ensures header { source.new.header ≡ source.old.header }
    ensures why { IfErr result (ExplainsRows R.remaining source.old) }
{
    for _ in 0..u64::MAX {
        match source.read_row(places)? {
            Some(row) => note_and_push(order, rows, row)?,
            None => return Ok(()),
        }
    }
    Err(Reason::NoMemory)
}

// Reads the rows that go after those that are there, and so those that come.
fn read_signed<R: Read + Drop>(
    changes: &mut Opened<'_, R>,
    columns: &Columns,
    order: &mut Order,
    gone: &mut Vec<ReadRow>,
    come: &mut Vec<ReadRow>,
) -> Result<(), Reason>
    ensures read { OnOk result (PartsChanges R.remaining columns.now changes.old.source.value
        gone.old.items gone.new.items come.old.items come.new.items
        (noted order.old) (noted order.new)) }
    ensures unordered { OnOk result (noted order.old ≡ None → noted order.new ≡ None) }
    ensures named { changes.new.file ≡ changes.old.file }
    ensures why { IfErr result (ExplainsUnread R.remaining columns.now changes.old.source.value) }
{
    let places = changes.source.places(columns)?;
    read_signed_rest(&mut changes.source, &places, order, gone, come)?;
    Ok(())
}

// Reads the changes that a source has left, after those that are there. No input has more of them than a number counts.
fn read_signed_rest<R: Read + Drop>(
    source: &mut Source<R>,
    places: &Places,
    order: &mut Order,
    gone: &mut Vec<ReadRow>,
    come: &mut Vec<ReadRow>,
) -> Result<(), Reason>
    ensures read { OnOk result (PartsRest R.remaining places.now source.old
        gone.old.items gone.new.items come.old.items come.new.items
        (noted order.old) (noted order.new)) }
    ensures unordered { OnOk result (noted order.old ≡ None → noted order.new ≡ None) }
    ensures header { source.new.header ≡ source.old.header }
    ensures why { IfErr result (ExplainsRows R.remaining source.old) }
{
    for _ in 0..u64::MAX {
        match source.read_signed(places)? {
            Some(signed) => note_and_part(order, gone, come, signed)?,
            None => return Ok(()),
        }
    }
    Err(Reason::NoMemory)
}

// Puts a row of changes after those that go or those that come.
fn note_and_part(
    order: &mut Order,
    gone: &mut Vec<ReadRow>,
    come: &mut Vec<ReadRow>,
    signed: SignedRow,
) -> Result<(), AllocError>
    ensures noted { OnOk result
        (noted order.new ≡ noted_with (noted order.old) (signed.row.key ∷ [])) }
    ensures goes { OnOk result (gone.new.items ≡ gone.old.items ++ gone_by signed.sign signed.row) }
    ensures comes { OnOk result (come.new.items ≡ come.old.items ++ come_by signed.sign signed.row) }
{
    match signed.sign {
        Sign::Minus => note_and_push(order, gone, signed.row),
        Sign::Plus => note_and_push(order, come, signed.row),
    }
}

// Takes the key of a row, and puts the row after the others.
fn note_and_push(order: &mut Order, rows: &mut Vec<ReadRow>, row: ReadRow) -> Result<(), AllocError>
    ensures noted { OnOk result
        (noted order.new ≡ noted_with (noted order.old) (row.key ∷ [])) }
    ensures pushed { OnOk result (rows.new.items ≡ rows.old.items ++ row ∷ []) }
{
    order.note(&row.key)?;
    rows.push(row)?;
    Ok(())
}
