//! Tables that are laid one over the other, the last one on top.
ghost use Rattle.std.specs.Prelude.{◌≡◌, ◌∷◌, ◌⊎◌, [], IfErr, IfOk, IfSome, IsOk, MatchOption};
ghost use Rattle.std.specs.Prelude.{OnOk, is_none, map, option_map, unwrap_or};
ghost use Rattle.std.specs.Io.KnownBytes.{Keeps};
ghost use Rattle.keyed_faults.specs.Outside.{IsApart};
ghost use Rattle.keyed_faults.specs.declared.fault.Reason.{Reason};
ghost use Rattle.keyed_columns.specs.Keys.{AreColumnsBy};
ghost use Rattle.keyed_columns.specs.declared.content.Content.TheVariants.{Rows};
ghost use Rattle.keyed_files.specs.Explained.{ExplainsOpening, ExplainsPlaces};
ghost use Rattle.keyed_files.specs.Opening.{form_of, text_of_stream};
ghost use Rattle.keyed_tables.specs.Arranged.{noted};
ghost use Rattle.keyed_jobs.specs.Answers.{IsTableFile};
ghost use Rattle.keyed_jobs.specs.NotedStyles.{IsNoted, watched_left};
ghost use Rattle.keyed_jobs.specs.FileOrder.{OfKeys, noted_with};
ghost use Rattle.keyed_jobs.specs.TablesRead.{IsUnordered};
ghost use Rattle.keyed_jobs.specs.declared.answer.Outcome.TheVariants.{Made};
ghost use Rattle.keyed_commands.specs.OverlayAnswers.{AreLaidOver, AreLayers, IsLayer, IsSpelledAsFirst};
ghost use Rattle.keyed_commands.specs.OverlayAnswers.{IsNotedFirst, LaysTables, NotesAll};
ghost use Rattle.keyed_commands.specs.OverlayAnswers.{OverlaysSources, OverlaysStreams, rows_laid};
ghost use Rattle.keyed_commands.specs.UnansweredOverlay.{AreReady, ExplainsLaid, ExplainsLayer};
ghost use Rattle.keyed_commands.specs.UnansweredOverlay.{ExplainsLayers, ExplainsOne, ExplainsOverlay};
ghost use Rattle.keyed_commands.specs.UnansweredOverlay.{HaveFiles, IsFirstFile};

use crate::files::put;
use crate::made_table::table_as_csv;
use keyed_columns::{Columns, Content, columns_of};
use keyed_faults::{Fault, Reason, at};
use keyed_files::{Opened, Stream, TableSpelling};
use keyed_jobs::{Answer, Job, Table, Watched, spelling_of, style_under, unwatched, watch};
use keyed_requests::{Form, Layer, Settings};
use keyed_rows::{Cells, Group, Key};
use keyed_tables::{filled_over, laid_over};
use keyed_text::Style;
use std::alloc::{AllocError, Global};
use std::io::Read;

/// The answer to `overlay`: the rows of all tables, and under a key those of the last table that has it; or, by cell, each cell of the last
/// table that has one there which is not empty. They are written as the first table is.
///
/// # Errors
///
/// Returns the fault of a table that can't be opened or read, that lacks a column of the key, or in which a key stands twice where keys may
/// not repeat; also want of memory, as the fault of one of them.
pub fn overlay<'a, R: Read + Drop>(
    alloc: Global,
    settings: Settings<'a>,
    layer: Layer,
    tables: Vec<Stream<'a, R>>,
) -> Result<Answer, Fault<'a>>
    ensures answer { IfOk result (OverlaysStreams R.remaining settings.entry layer tables.entry.items) }
    ensures why { IfErr result (ExplainsOverlay R.remaining settings.entry tables.entry.items) }
{
    let layers = open_all(alloc, settings, tables)?;
    let (opened, first_style) = layers;
    let file = first_file(&opened);
    let columns = at(file, columns_of_all(alloc, settings, &opened))?;
    overlay_files(
        Job::new(alloc, settings, &columns),
        first_style,
        layer,
        file,
        opened,
    )
}

fn overlay_files<'a, R: Read + Drop>(
    mut job: Job<'_, Columns>,
    first_style: Style,
    layer: Layer,
    file: &'a str,
    tables: Vec<Opened<'a, Watched<R>>>,
) -> Result<Answer, Fault<'a>>
    ensures answer { IfOk result
        (OverlaysSources R.remaining layer first_style job.entry tables.entry.items) }
    ensures why { IfErr result (λ fault. (IsApart fault.reason × (fault.file ≡ file.entry))
        ⊎ ExplainsLaid R.remaining job.entry.groups job.entry.columns.now tables.entry.items fault) }
{
    let laid = lay_all(&mut job, layer, tables)?;
    let has_end = laid.has_end.unwrap_or(first_style.has_end);
    let style = style_under(job.form.writing.heading, first_style, has_end);
    let spelling = laid.spelling.unwrap_or(TableSpelling::even(job.alloc));
    let job = job.in_style(style, spelling);
    at(file, answer_laid(&job, laid.table))
}

// Reads the headers of all tables. The columns of the key have in the first one the names that they have in the others, and its text begins
// in the style that is returned, which is that of the form where there is no table.
fn open_all<'a, R: Read + Drop>(
    alloc: Global,
    settings: Settings<'a>,
    tables: Vec<Stream<'a, R>>,
) -> Result<(Vec<Opened<'a, Watched<R>>>, Style), Fault<'a>>
    ensures layers { IfOk result (λ read. AreLayers R.remaining settings.entry.form settings.entry.key
        tables.entry.items read.0.items) }
    ensures style { IfOk result (λ read. IsNotedFirst R.remaining settings.entry.form
        tables.entry.items read.1) }
    ensures named { IfOk result (λ read. HaveFiles tables.entry.items read.0.items) }
    ensures ready { OnOk result (AreReady tables.entry.items) }
    ensures why { IfErr result
        (ExplainsLayers R.remaining settings.entry.form settings.entry.key tables.entry.items) }
{
    let mut opened = Vec::new(alloc);
    let mut key = settings.key;
    let mut first_style = None;
    for stream in tables {
        let file = stream.file;
        let layer = open_layer(alloc, settings.form, key, first_style, stream)?;
        let (table, style) = layer;
        at(file, put(&mut opened, table))?;
        key = None;
        first_style = Some(style);
    }
    let style = first_style.unwrap_or(settings.form.writing.style);
    Ok((opened, style))
}

// Reads the header of a table whose columns of the key, where it is set, get the names that they have in the others, with the style in
// which the first table begins: that is this one where none is known.
fn open_layer<'a, R: Read + Drop>(
    alloc: Global,
    form: Form,
    key: Option<&str>,
    first_style: Option<Style>,
    stream: Stream<'a, R>,
) -> Result<(Opened<'a, Watched<R>>, Style), Fault<'a>>
    ensures layer { IfOk result (λ read. IsLayer R.remaining form key.entry stream.entry read.0) }
    ensures style { IfOk result (λ read. MatchOption first_style
        (IfSome (text_of_stream R.remaining form stream.entry) (IsNoted (form_of form stream.entry) read.1))
        (λ style. read.1 ≡ style)) }
    ensures named { IfOk result (λ read. read.0.file ≡ stream.entry.file) }
    ensures ready { OnOk result (IsOk stream.entry.reader) }
    ensures why { IfErr result (ExplainsLayer R.remaining form key.entry stream.entry) }
{
    let watched = watch_layer(alloc, form, first_style, stream)?;
    let (stream, style) = watched;
    let mut table = Opened::new(alloc, form, Content::Rows, stream)?;
    table.rename_key(alloc, key)?;
    Ok((table, style))
}

// A table that is read, with that style: of the first one alone one wants to know how it is written.
fn watch_layer<'a, R: Read + Drop>(
    alloc: Global,
    form: Form,
    first_style: Option<Style>,
    stream: Stream<'a, R>,
) -> Result<(Stream<'a, Watched<R>>, Style), Fault<'a>>
    ensures form { IfOk result (λ read. form_of form read.0 ≡ form_of form stream.entry) }
    ensures text { IfOk result (λ read. Keeps (text_of_stream R.remaining form stream.entry)
        (text_of_stream (watched_left R.remaining) form read.0)) }
    ensures style { IfOk result (λ read. MatchOption first_style
        (IfSome (text_of_stream (watched_left R.remaining) form read.0) (IsNoted (form_of form read.0) read.1))
        (λ style. read.1 ≡ style)) }
    ensures named { IfOk result (λ read. read.0.file ≡ stream.entry.file) }
    ensures opens { IfOk result (λ read. (told : Reason) → ExplainsOpening read.0.reader told
        → ExplainsOpening stream.entry.reader told) }
    ensures ready { IfOk result (λ read. IsOk read.0.reader → IsOk stream.entry.reader) }
    ensures file { IfErr result (λ fault. fault.file ≡ stream.entry.file) }
    ensures why { IfErr result (λ fault. ExplainsOpening stream.entry.reader fault.reason) }
{
    match first_style {
        Some(style) => Ok((unwatched(alloc, stream), style)),
        None => {
            let watched = watch(alloc, form, stream)?;
            Ok(watched)
        }
    }
}

// The file of the first table, or the standard input where there is none.
fn first_file<'a, R>(opened: &[Opened<'a, R>]) -> &'a str
    ensures { IsFirstFile opened.now result }
{
    match opened.first() {
        Some(table) => table.file,
        None => "-",
    }
}

// The columns of all tables, with a heading that spells them as the first one does.
fn columns_of_all<R>(
    alloc: Global,
    settings: Settings<'_>,
    opened: &[Opened<'_, R>],
) -> Result<Columns, Reason>
    ensures columns { IfOk result (AreColumnsBy settings.entry.key
        (map (λ table. table.source.value.header.names) opened.now)
        (map (λ table. table.source.value.header.names) opened.now)) }
    ensures spelled { IfOk result (IsSpelledAsFirst opened.now) }
    ensures why { IfErr result IsApart }
{
    let headers = headers_of(alloc, opened)?;
    let columns = columns_of(alloc, settings.key, &headers)?;
    let spelled = spell_as_first(alloc, opened, columns)?;
    Ok(spelled)
}

// The same columns, with a heading that spells them as the first table does, if there is one.
fn spell_as_first<R>(
    alloc: Global,
    opened: &[Opened<'_, R>],
    columns: Columns,
) -> Result<Columns, AllocError>
    ensures same { IfOk result (λ spelled. spelled ≡ record columns { spelled = spelled.spelled }) }
    ensures spelled { IfOk result (IsSpelledAsFirst opened.now) }
{
    match opened {
        [first, ..] => {
            let spelled = columns.spell_as(alloc, first.source.spelling())?;
            Ok(spelled)
        }
        [] => Ok(columns),
    }
}

fn headers_of<'o, R>(
    alloc: Global,
    opened: &'o [Opened<'_, R>],
) -> Result<Vec<&'o Cells>, AllocError>
    ensures { IfOk result (λ headers. map (λ header. header.now) headers.items
        ≡ map (λ table. table.source.value.header.names) opened.now) }
{
    let mut headers = Vec::new(alloc);
    for table in opened {
        headers.push(table.header())?;
    }
    Ok(headers)
}

// Tables that are laid one over the other, if there is one, and of the first one whether its last row has an end, and how its rows are
// spelled.
#[derive(Drop)]
struct Laid {
    table: Option<Table>,
    has_end: Option<bool>,
    spelling: Option<TableSpelling>,
}

// Reads the tables one after the other, each laid over those before it.
#[tactic(auto, using(crate::proofs::OverlayLemmas::none_rises))]
fn lay_all<'a, R: Read + Drop>(
    job: &mut Job<'_, Columns>,
    layer: Layer,
    tables: Vec<Opened<'a, Watched<R>>>,
) -> Result<Laid, Fault<'a>>
    ensures laid { IfOk result (λ laid. LaysTables R.remaining layer job.old.groups job.old.columns.now []
        tables.entry.items (rows_laid laid)) }
    ensures notes { OnOk result (NotesAll R.remaining job.old.columns.now tables.entry.items
        (noted job.old.order) (noted job.new.order)) }
    ensures same { job.new ≡ record job.old { order = job.new.order; row_order = job.new.row_order } }
    ensures unordered { OnOk result (IsUnordered job.old → IsUnordered job.new) }
    ensures why { IfErr result
        (ExplainsLaid R.remaining job.old.groups job.old.columns.now tables.entry.items) }
{
    let mut laid = Laid {
        table: None,
        has_end: None,
        spelling: None,
    };
    for table in tables {
        laid = lay(job, layer, laid, table)?;
    }
    Ok(laid)
}

// Reads a table, and lays it over what stands below.
fn lay<'a, R: Read + Drop>(
    job: &mut Job<'_, Columns>,
    layer: Layer,
    below: Laid,
    mut table: Opened<'a, Watched<R>>,
) -> Result<Laid, Fault<'a>>
    ensures laid { IfOk result (λ laid. LaysTables R.remaining layer job.old.groups job.old.columns.now
        (rows_laid below) (table.entry ∷ []) (rows_laid laid)) }
    ensures notes { OnOk result (OfKeys (watched_left R.remaining) Rows job.old.columns.now
        table.entry.source.value (λ keys. noted job.new.order ≡ noted_with (noted job.old.order) keys)) }
    ensures same { job.new ≡ record job.old { order = job.new.order; row_order = job.new.row_order } }
    ensures unordered { OnOk result (IsUnordered job.old → IsUnordered job.new) }
    ensures why { IfErr result
        (ExplainsOne R.remaining job.old.groups job.old.columns.now table.entry) }
{
    let above = job.read_table(job.columns, &mut table)?;
    let has_end = below.has_end.unwrap_or(table.source.get_ref().has_end());
    let spelling = first_spelling(job, below.spelling, &table)?;
    let laid = at(table.file, lay_over(job.alloc, layer, below.table, above))?;
    Ok(Laid {
        table: Some(laid),
        has_end: Some(has_end),
        spelling: Some(spelling),
    })
}

// The spelling of the rows of the first table: that of the tables below, if there is one.
fn first_spelling<'a, R: Read + Drop>(
    job: &Job<'_, Columns>,
    below: Option<TableSpelling>,
    table: &Opened<'a, Watched<R>>,
) -> Result<TableSpelling, Fault<'a>>
    ensures file { IfErr result (λ fault. fault.file ≡ table.now.file) }
    ensures why { IfErr result (λ fault.
        ExplainsPlaces table.now.source.value job.now.columns.now fault.reason ⊎ IsApart fault.reason) }
{
    match below {
        Some(spelling) => Ok(spelling),
        None => spelling_of(job, table),
    }
}

// A table over another, if there is one.
fn lay_over(
    alloc: Global,
    layer: Layer,
    below: Option<Table>,
    above: Table,
) -> Result<Table, AllocError>
    ensures { IfOk result (λ laid. AreLaidOver layer
        (unwrap_or (option_map (λ table. table.pairs.items) below) [])
        (above.pairs.items ∷ []) laid.pairs.items) }
{
    match below {
        Some(below) => {
            let laid = laid_by(alloc, layer, below, above)?;
            Ok(laid)
        }
        None => Ok(above),
    }
}

fn laid_by(alloc: Global, layer: Layer, below: Table, above: Table) -> Result<Table, AllocError>
    ensures { IfOk result (λ laid.
        AreLaidOver layer below.pairs.items (above.pairs.items ∷ []) laid.pairs.items) }
{
    match layer {
        Layer::Rows => laid_over(alloc, below, above),
        Layer::Cells => filled_over(alloc, below, above),
    }
}

// The rows of a table, if there is one.
fn answer_laid(job: &Job<'_, Columns>, table: Option<Table>) -> Result<Answer, AllocError>
    ensures text { IfOk result (λ answer. IsTableFile job.now.form job.now.columns.now (noted job.now.order)
        (is_none job.now.row_order.files)
        (unwrap_or (option_map (λ table. table.pairs.items) table) []) answer.bytes.items) }
    ensures status { IfOk result (λ answer. answer.status ≡ 0) }
    ensures outcome { IfOk result (λ answer. answer.outcome ≡ Made) }
{
    let answer = table_as_csv(job, rows_of(job.alloc, table))?;
    Ok(answer)
}

// The rows of a table, if there is one.
fn rows_of(alloc: Global, table: Option<Table>) -> Vec<(Key, Group)>
    ensures { result.items ≡ unwrap_or (option_map (λ table. table.pairs.items) table) [] }
{
    match table {
        Some(table) => table.pairs,
        None => Vec::new(alloc),
    }
}
