//! The plain spelling of what a command line asks for: each option by its whole name, with its value in the same word, and the files last.

use keyed_arguments::{Line, Progress};
use keyed_numbers::DecimalMark;
use keyed_requests::{
    Asked, ColumnsShown, Command, Comparing, Conflicts, Direction, Finding, Form, Format, Heading,
    JoinNames, Joining, Kind, Layer, Layout, Lengths, Look, Lookup, LookupKind, Merging, Misfits,
    Overlay, Picked, Quotes, Request, RowComparing, RowFormat, RowsShown, Sameness, Settings, Side,
    SortedChanges, SortedRequest, Unit, View, Wanted,
};
use std::alloc::{AllocError, Global};

/// Returns the words of a command line, the name of the program first, that asks for the answer to a command; and none for anything else.
///
/// # Errors
///
/// Returns `AllocError` if a request for memory was refused.
pub fn words_of(alloc: Global, line: &Line<'_>) -> Result<Vec<String>, AllocError> {
    let mut words = Words {
        alloc,
        words: Vec::new(alloc),
        files: Vec::new(alloc),
    };
    if let Line::Asked { asked, progress } = line {
        if let Asked::Answer { command, output } = asked {
            words.put("keyed")?;
            words.put_command(command)?;
            words.put_value("output", *output)?;
            words.put_flag("no-progress", matches!(progress, Progress::LeftOut))?;
        }
    }
    words.whole()
}

// Words in the making, and the files that stand after them.
#[derive(Drop)]
struct Words {
    alloc: Global,
    words: Vec<String>,
    files: Vec<String>,
}

impl Words {
    // All words. What stands after `--` is no option, whatever it begins with.
    fn whole(mut self) -> Result<Vec<String>, AllocError> {
        self.put("--")?;
        for file in &self.files {
            self.words.push(String::from_str(self.alloc, file)?)?;
        }
        Ok(self.words)
    }

    fn put(&mut self, word: &str) -> Result<(), AllocError> {
        self.words.push(String::from_str(self.alloc, word)?)?;
        Ok(())
    }

    fn put_file(&mut self, file: &str) -> Result<(), AllocError> {
        self.files.push(String::from_str(self.alloc, file)?)?;
        Ok(())
    }

    fn put_flag(&mut self, name: &str, is_set: bool) -> Result<(), AllocError> {
        if is_set {
            self.words.push(format!(in self.alloc; "--{name}")?)?;
        }
        Ok(())
    }

    fn put_text(&mut self, name: &str, value: &str) -> Result<(), AllocError> {
        self.words
            .push(format!(in self.alloc; "--{name}={value}")?)?;
        Ok(())
    }

    fn put_value(&mut self, name: &str, value: Option<&str>) -> Result<(), AllocError> {
        match value {
            Some(value) => self.put_text(name, value),
            None => Ok(()),
        }
    }

    fn put_number(&mut self, name: &str, number: u64) -> Result<(), AllocError> {
        self.words
            .push(format!(in self.alloc; "--{name}={number}")?)?;
        Ok(())
    }

    fn put_byte(&mut self, name: &str, byte: u8) -> Result<(), AllocError> {
        let shown = char::from(byte);
        self.words
            .push(format!(in self.alloc; "--{name}={shown}")?)?;
        Ok(())
    }

    fn put_command(&mut self, command: &Command<'_>) -> Result<(), AllocError> {
        match command {
            Command::Whole {
                settings,
                request,
                wanted,
            } => {
                self.put_request(*request, *settings)?;
                self.put_settings(*settings)?;
                self.put_wanted(*wanted)
            }
            Command::Sorted {
                layout,
                request,
                wanted,
            } => {
                self.put_sorted(*request)?;
                self.put_layout(*layout)?;
                self.put_two_delimiters(layout.form)?;
                self.put_flag("sorted", true)?;
                self.put_wanted(*wanted)
            }
            Command::Lookup { layout, request } => {
                self.put_lookup(*request)?;
                self.put_layout(*layout)?;
                self.put_two_delimiters(layout.form)
            }
            Command::Overlay { settings, request } => {
                self.put_overlay(request)?;
                self.put_byte("delimiter", settings.form.delimiter.byte())?;
                self.put_settings(*settings)
            }
        }
    }

    fn put_request(
        &mut self,
        request: Request<'_>,
        settings: Settings<'_>,
    ) -> Result<(), AllocError> {
        match request {
            Request::Diff { old, new, how } => {
                self.put("diff")?;
                self.put_comparing(how)?;
                self.put_two(old, new, settings.form)
            }
            Request::DiffRows { old, new, how } => {
                self.put("diff")?;
                self.put_flag("key-row", true)?;
                self.put_row_comparing(how)?;
                self.put_two(old, new, settings.form)
            }
            Request::Apply { old, changes, how } => {
                self.put("apply")?;
                self.put_look(settings.look)?;
                self.put_flag("reverse", matches!(how.direction, Direction::Backward))?;
                if let Misfits::Rejected(file) = how.misfits {
                    self.put_text("partial", file)?;
                }
                self.put_two(old, changes, settings.form)
            }
            Request::Merge {
                base,
                ours,
                theirs,
                how,
            } => {
                self.put("merge")?;
                self.put_look(settings.look)?;
                self.put_merging(how)?;
                self.put_byte("delimiter", settings.form.delimiter.byte())?;
                self.put_file(base)?;
                self.put_file(ours)?;
                self.put_file(theirs)
            }
            Request::Join { left, right, how } => {
                self.put("join")?;
                self.put_joining(how)?;
                self.put_two(left, right, settings.form)
            }
        }
    }

    // Two files, with the byte between the cells of each.
    fn put_two(&mut self, first: &str, next: &str, form: Form) -> Result<(), AllocError> {
        self.put_two_delimiters(form)?;
        self.put_file(first)?;
        self.put_file(next)
    }

    fn put_two_delimiters(&mut self, form: Form) -> Result<(), AllocError> {
        self.put_byte("left-delimiter", form.delimiter.byte())?;
        match form.reading.next {
            Some(next) => self.put_byte("delimiter", next.byte()),
            None => Ok(()),
        }
    }

    fn put_sorted(&mut self, request: SortedRequest<'_>) -> Result<(), AllocError> {
        match request {
            SortedRequest::Diff { old, new, how } => {
                self.put("diff")?;
                self.put_sorted_changes(how)?;
                self.put_file(old)?;
                self.put_file(new)
            }
            SortedRequest::Join { left, right, how } => {
                self.put("join")?;
                self.put_joining(how)?;
                self.put_file(left)?;
                self.put_file(right)
            }
        }
    }

    fn put_sorted_changes(&mut self, how: SortedChanges<'_>) -> Result<(), AllocError> {
        match how {
            SortedChanges::Csv => self.put_text("format", "csv"),
            SortedChanges::Json { columns, sameness } => {
                self.put_text("format", "json")?;
                self.put_picked(columns)?;
                self.put_sameness(sameness)
            }
        }
    }

    fn put_lookup(&mut self, request: Lookup<'_>) -> Result<(), AllocError> {
        let Finding {
            kind,
            names,
            format,
        } = request.how;
        self.put("lookup")?;
        let kind = match kind {
            LookupKind::Left => "left",
            LookupKind::Inner => "inner",
            LookupKind::Anti => "anti",
        };
        self.put_text("kind", kind)?;
        self.put_prefix(names)?;
        self.put_row_format(format)?;
        self.put_file(request.left)?;
        self.put_file(request.right)
    }

    fn put_overlay(&mut self, request: &Overlay<'_>) -> Result<(), AllocError> {
        self.put("overlay")?;
        self.put_flag("cells", matches!(request.layer, Layer::Cells))?;
        for named in &request.files {
            self.put_file(named.file)?;
        }
        Ok(())
    }

    fn put_settings(&mut self, settings: Settings<'_>) -> Result<(), AllocError> {
        self.put_layout(settings.layout())?;
        self.put_value("rename", settings.renames)?;
        self.put_flag("keep-order", settings.keeps_order)?;
        self.put_flag("group", settings.groups)
    }

    // All but the bytes between cells, of which commands take more or fewer.
    fn put_layout(&mut self, layout: Layout<'_>) -> Result<(), AllocError> {
        let form = layout.form;
        self.put_value("key", layout.key)?;
        self.put_flag("no-header", !form.has_header)?;
        self.put_flag("lenient", matches!(form.reading.quotes, Quotes::Lenient))?;
        self.put_flag("ragged", matches!(form.reading.lengths, Lengths::Ragged))?;
        if let Some(comment) = form.reading.comment {
            self.put_byte("comment", comment.byte())?;
        }
        self.put_number("skip", form.reading.skipped)?;
        self.put_flag(
            "no-heading",
            matches!(form.writing.heading, Heading::Omitted),
        )
    }

    fn put_wanted(&mut self, wanted: Wanted) -> Result<(), AllocError> {
        self.put_flag("quiet", matches!(wanted, Wanted::Status))
    }

    fn put_comparing(&mut self, how: Comparing<'_>) -> Result<(), AllocError> {
        self.put_format(how.format)?;
        self.put_view(how.view)?;
        self.put_sameness(how.sameness)
    }

    fn put_row_comparing(&mut self, how: RowComparing) -> Result<(), AllocError> {
        self.put_format(how.format)?;
        self.put_rows(how.rows)?;
        self.put_number("width", how.width.unwrap_or(0) as u64)
    }

    fn put_format(&mut self, format: Format) -> Result<(), AllocError> {
        match format {
            Format::Csv => self.put_text("format", "csv"),
            Format::Report(look) => self.put_report(look),
        }
    }

    // A report, in colours or in none.
    fn put_report(&mut self, look: Look) -> Result<(), AllocError> {
        self.put_look(look)?;
        if let Look::Table { colours } = look {
            let colours = match colours {
                keyed_requests::Colours::On => "always",
                keyed_requests::Colours::Off => "never",
            };
            self.put_text("color", colours)?;
        }
        Ok(())
    }

    fn put_look(&mut self, look: Look) -> Result<(), AllocError> {
        let look = match look {
            Look::Table { .. } => "table",
            Look::Json => "json",
            Look::Markdown => "markdown",
            Look::Html => "html",
        };
        self.put_text("format", look)
    }

    fn put_view(&mut self, view: View<'_>) -> Result<(), AllocError> {
        self.put_picked(view.columns)?;
        self.put_flag("all-columns", matches!(view.shown, ColumnsShown::All))?;
        self.put_rows(view.rows)?;
        self.put_number("width", view.width.unwrap_or(0) as u64)
    }

    fn put_rows(&mut self, rows: RowsShown) -> Result<(), AllocError> {
        match rows {
            RowsShown::All => Ok(()),
            RowsShown::First(count) => self.put_number("limit", count as u64),
            RowsShown::Nothing => self.put_flag("summary", true),
        }
    }

    fn put_picked(&mut self, columns: Picked<'_>) -> Result<(), AllocError> {
        match columns {
            Picked::All => Ok(()),
            Picked::Only(names) => self.put_text("only", names),
            Picked::AllBut(names) => self.put_text("ignore", names),
        }
    }

    fn put_sameness(&mut self, sameness: Option<Sameness<'_>>) -> Result<(), AllocError> {
        let Some(sameness) = sameness else {
            return Ok(());
        };
        self.put_flag("numbers", sameness.tolerance.is_some())?;
        self.put_value("tolerance", sameness.tolerance)?;
        self.put_flag("decimal-comma", matches!(sameness.mark, DecimalMark::Comma))?;
        self.put_flag("trim", sameness.trims)?;
        self.put_flag("ignore-case", sameness.folds_case)
    }

    fn put_merging(&mut self, how: Merging<'_>) -> Result<(), AllocError> {
        self.put_flag("by-cell", matches!(how.unit, Unit::Cell))?;
        match how.conflicts {
            Conflicts::Report => self.put_text("conflicts", "report")?,
            Conflicts::Marks => self.put_text("conflicts", "marks")?,
            Conflicts::Prefer(Side::Ours) => self.put_text("prefer", "ours")?,
            Conflicts::Prefer(Side::Theirs) => self.put_text("prefer", "theirs")?,
        }
        self.put_sameness(how.sameness)
    }

    fn put_joining(&mut self, how: Joining<'_>) -> Result<(), AllocError> {
        let kind = match how.kind {
            Kind::Outer => "outer",
            Kind::Inner => "inner",
            Kind::Left => "left",
            Kind::Right => "right",
            Kind::Semi => "semi",
            Kind::Anti => "anti",
        };
        self.put_text("kind", kind)?;
        self.put_prefix(how.names)?;
        self.put_text("side", how.names.side)?;
        self.put_row_format(how.format)
    }

    fn put_prefix(&mut self, names: JoinNames<'_>) -> Result<(), AllocError> {
        let JoinNames { left, right, .. } = names;
        self.words
            .push(format!(in self.alloc; "--prefix={left},{right}")?)?;
        Ok(())
    }

    fn put_row_format(&mut self, format: RowFormat) -> Result<(), AllocError> {
        let format = match format {
            RowFormat::Csv => "csv",
            RowFormat::Json => "json",
        };
        self.put_text("format", format)
    }
}
