//! Tests: each line of which one can ask in plain words is read back from them.

use crate::plain::words_of;
use keyed_arguments::{Line, Progress, Terminal, parse};
use keyed_numbers::DecimalMark;
use keyed_requests::{
    Applying, Asked, Colours, ColumnsShown, Command, Comment, Comparing, Conflicts, Delimiter,
    Direction, Finding, Form, Format, Heading, JoinNames, Joining, Kind, Layer, Lengths, Look,
    Lookup, LookupKind, Merging, Misfits, NamedFile, Overlay, Picked, Quotes, Reading, Request,
    RowComparing, RowFormat, RowsShown, Sameness, Settings, Side, SortedChanges, SortedRequest,
    Unit, View, Wanted, Writing,
};
use std::alloc::{AllocError, Global};
use testkit::random::Random;

// Names of files, some of which are no options though they look like them.
static FILES: [&str; 10] = [
    "old.csv", "new.csv", "a b", "-", "--", "-k", "--key=id", "t.tsv", "\u{e9}", "=",
];

// Names of files that are neither one of those nor the output, some of which look like options.
static REJECTS: [&str; 4] = ["rejects.csv", "r s", "-r", "--partial=x"];

// Names of columns, as records of CSV.
static NAMES: [&str; 6] = ["id", "a,b", "\"a,b\"", "-k", "x==y", ""];

static KEYS: [&str; 4] = ["id", "id=key", "a,b=c", "--sorted"];

static RENAMES: [&str; 2] = ["a=b", "a=b,c=d"];

static BYTES: [u8; 5] = [b',', b';', b'\t', b'|', b'-'];

static TOLERANCES: [&str; 4] = ["0", "0.5", "price=0.01", "a=1,b=0"];

static TEXTS: [&str; 4] = ["left.", "", "-", "--side"];

// Picks what a line asks for.
#[derive(Drop)]
struct Picker {
    random: Random,
}

impl Picker {
    fn coin(&mut self) -> bool {
        self.random.below(2) == 0
    }

    // A place in a list of so many items.
    fn place_in(&mut self, count: usize) -> usize {
        (self.random.next() as usize)
            .checked_rem(count)
            .unwrap_or(0)
    }

    // One of the texts.
    fn text(&mut self, texts: &'static [&'static str]) -> &'static str {
        texts.get(self.place_in(texts.len())).copied().unwrap_or("")
    }

    fn maybe(&mut self, texts: &'static [&'static str]) -> Option<&'static str> {
        if self.coin() {
            Some(self.text(texts))
        } else {
            None
        }
    }

    fn delimiter(&mut self) -> Delimiter {
        let place = self.place_in(BYTES.len());
        let byte = BYTES.get(place).copied().unwrap_or(b',');
        Delimiter::new(byte).unwrap_or(Delimiter::COMMA)
    }

    // A form whose second table and third table have the same byte between cells.
    fn form(&mut self, delimiter: Delimiter, next: Delimiter) -> Form {
        Form {
            delimiter,
            has_header: self.coin(),
            reading: Reading {
                next: Some(next),
                last: Some(next),
                quotes: if self.coin() {
                    Quotes::Strict
                } else {
                    Quotes::Lenient
                },
                lengths: if self.coin() {
                    Lengths::Equal
                } else {
                    Lengths::Ragged
                },
                comment: if self.coin() {
                    Comment::new(b'#')
                } else {
                    None
                },
                skipped: self.random.below(3) as u64,
            },
            writing: Writing::PLAIN,
        }
    }

    // Settings of a command that reads files with these bytes between their cells, and that says so in its reports.
    fn settings(&mut self, form: Form, look: Look, groups: bool) -> Settings<'static> {
        Settings {
            form,
            key: self.maybe(&KEYS),
            renames: self.maybe(&RENAMES),
            keeps_order: self.coin(),
            groups,
            look,
        }
    }

    fn look(&mut self, colours: Colours) -> Look {
        match self.random.below(4) {
            0 => Look::Table { colours },
            1 => Look::Json,
            2 => Look::Markdown,
            _ => Look::Html,
        }
    }

    fn sameness(&mut self) -> Option<Sameness<'static>> {
        let tolerance = self.maybe(&TOLERANCES);
        let sameness = Sameness {
            tolerance,
            mark: if tolerance.is_some() && self.coin() {
                DecimalMark::Comma
            } else {
                DecimalMark::Point
            },
            trims: self.coin(),
            folds_case: self.coin(),
        };
        if sameness.tolerance.is_none() && !sameness.trims && !sameness.folds_case {
            None
        } else {
            Some(sameness)
        }
    }

    fn picked(&mut self) -> Picked<'static> {
        match self.random.below(3) {
            0 => Picked::All,
            1 => Picked::Only(self.text(&NAMES)),
            _ => Picked::AllBut(self.text(&NAMES)),
        }
    }

    fn row_format(&mut self) -> RowFormat {
        if self.coin() {
            RowFormat::Csv
        } else {
            RowFormat::Json
        }
    }

    fn names(&mut self, side: &'static str) -> JoinNames<'static> {
        JoinNames {
            left: self.text(&TEXTS),
            right: self.text(&TEXTS),
            side,
        }
    }

    fn joining(&mut self) -> Joining<'static> {
        let kind = match self.random.below(6) {
            0 => Kind::Outer,
            1 => Kind::Inner,
            2 => Kind::Left,
            3 => Kind::Right,
            4 => Kind::Semi,
            _ => Kind::Anti,
        };
        let side = self.text(&TEXTS);
        Joining {
            kind,
            names: self.names(side),
            format: self.row_format(),
        }
    }

    // How tables are compared in a report. JSON shows all rows or none, and what is no table and no JSON shows rows.
    fn report(&mut self, groups: bool) -> Comparing<'static> {
        let colours = if self.coin() {
            Colours::On
        } else {
            Colours::Off
        };
        let look = self.look(colours);
        let rows = match (look, self.random.below(3)) {
            (_, 0) => RowsShown::All,
            (Look::Table { .. } | Look::Json, 1) => RowsShown::Nothing,
            (Look::Json, _) => RowsShown::All,
            (_, _) => RowsShown::First(self.random.below(9) as usize),
        };
        let shown = match rows {
            RowsShown::Nothing => ColumnsShown::Changed,
            RowsShown::All | RowsShown::First(_) if self.coin() => ColumnsShown::All,
            RowsShown::All | RowsShown::First(_) => ColumnsShown::Changed,
        };
        Comparing {
            format: Format::Report(look),
            view: View {
                columns: self.picked(),
                shown,
                rows,
                width: self.width(),
            },
            sameness: if groups { None } else { self.sameness() },
        }
    }

    fn width(&mut self) -> Option<usize> {
        match self.random.below(100) {
            0..=49 => None,
            width => Some(width as usize),
        }
    }

    // The columns of changes as CSV: all, or without groups also all but some, and where a header names them some alone.
    fn columns_changed(&mut self, groups: bool, has_header: bool) -> Picked<'static> {
        match self.picked() {
            _ if groups => Picked::All,
            Picked::Only(_) if !has_header => Picked::All,
            columns => columns,
        }
    }

    // Changes of these columns as CSV.
    fn changes(&mut self, columns: Picked<'static>) -> Comparing<'static> {
        Comparing {
            format: Format::Csv,
            view: View {
                columns,
                width: self.width(),
                ..View::WHOLE
            },
            sameness: None,
        }
    }

    fn diff(&mut self) -> Command<'static> {
        let (old, new) = (self.text(&FILES), self.text(&FILES));
        let groups = self.coin();
        let (delimiter, next) = (self.delimiter(), self.delimiter());
        let form = self.form(delimiter, next);
        let how = if self.coin() {
            self.report(groups)
        } else {
            let columns = self.columns_changed(groups, form.has_header);
            self.changes(columns)
        };
        let look = match how.format {
            Format::Report(Look::Table { .. }) | Format::Csv => Look::PLAIN,
            Format::Report(look) => look,
        };
        let has_csv = matches!(how.format, Format::Csv);
        Command::Whole {
            settings: self.settings(self.with_heading(form, has_csv), look, groups),
            request: Request::Diff { old, new, how },
            wanted: Wanted::Answer,
        }
    }

    // Rows that are compared as wholes, so that no setting says anything of keys.
    fn row_diff(&mut self) -> Command<'static> {
        let (old, new) = (self.text(&FILES), self.text(&FILES));
        let how = if self.coin() {
            self.report(true)
        } else {
            self.changes(Picked::All)
        };
        let look = match how.format {
            Format::Report(Look::Table { .. }) | Format::Csv => Look::PLAIN,
            Format::Report(look) => look,
        };
        let (delimiter, next) = (self.delimiter(), self.delimiter());
        let form = self.form(delimiter, next);
        let has_csv = matches!(how.format, Format::Csv);
        Command::Whole {
            settings: Settings {
                form: self.with_heading(form, has_csv),
                key: None,
                renames: None,
                keeps_order: false,
                groups: false,
                look,
            },
            request: Request::DiffRows {
                old,
                new,
                how: RowComparing {
                    format: how.format,
                    rows: how.view.rows,
                    width: how.view.width,
                },
            },
            wanted: Wanted::Answer,
        }
    }

    // The form, with no names of columns in the answer now and then, where that is CSV.
    fn with_heading(&self, form: Form, has_csv: bool) -> Form {
        let heading = if has_csv && form.reading.skipped == 1 {
            Heading::Omitted
        } else {
            Heading::Written
        };
        Form {
            writing: Writing {
                heading,
                ..Writing::PLAIN
            },
            ..form
        }
    }

    fn apply(&mut self) -> Command<'static> {
        let (old, changes) = (self.text(&FILES), self.text(&FILES));
        let (delimiter, next) = (self.delimiter(), self.delimiter());
        let form = self.form(delimiter, next);
        let look = self.look(Colours::Off);
        let (groups, is_backward) = (self.coin(), self.coin());
        let misfits = match self.maybe(&REJECTS) {
            Some(file) => Misfits::Rejected(file),
            None => Misfits::Reported,
        };
        Command::Whole {
            settings: self.settings(self.with_heading(form, true), look, groups),
            request: Request::Apply {
                old,
                changes,
                how: Applying {
                    direction: if is_backward {
                        Direction::Backward
                    } else {
                        Direction::Forward
                    },
                    misfits,
                },
            },
            wanted: self.wanted(),
        }
    }

    fn wanted(&mut self) -> Wanted {
        if self.coin() {
            Wanted::Answer
        } else {
            Wanted::Status
        }
    }

    fn merge(&mut self) -> Command<'static> {
        let (base, ours, theirs) = (self.text(&FILES), self.text(&FILES), self.text(&FILES));
        let delimiter = self.delimiter();
        let form = self.form(delimiter, delimiter);
        let look = self.look(Colours::Off);
        let groups = self.coin();
        let conflicts = match self.random.below(4) {
            0 => Conflicts::Report,
            1 => Conflicts::Marks,
            2 => Conflicts::Prefer(Side::Ours),
            _ => Conflicts::Prefer(Side::Theirs),
        };
        let how = Merging {
            unit: if self.coin() { Unit::Row } else { Unit::Cell },
            conflicts,
            sameness: if groups { None } else { self.sameness() },
        };
        Command::Whole {
            settings: self.settings(self.with_heading(form, true), look, groups),
            request: Request::Merge {
                base,
                ours,
                theirs,
                how,
            },
            wanted: self.wanted(),
        }
    }

    fn join(&mut self) -> Command<'static> {
        let (left, right, how) = (self.text(&FILES), self.text(&FILES), self.joining());
        let (delimiter, next) = (self.delimiter(), self.delimiter());
        let form = self.form(delimiter, next);
        let (look, has_csv) = match how.format {
            RowFormat::Csv => (Look::PLAIN, true),
            RowFormat::Json => (Look::Json, false),
        };
        let groups = self.coin();
        let settings = self.settings(self.with_heading(form, has_csv), look, groups);
        Command::Whole {
            settings: Settings {
                renames: None,
                ..settings
            },
            request: Request::Join { left, right, how },
            wanted: Wanted::Answer,
        }
    }

    fn sorted(&mut self) -> Command<'static> {
        let (first, next) = (self.text(&FILES), self.text(&FILES));
        let (request, has_csv) = match self.random.below(3) {
            0 => {
                let how = self.joining();
                let request = SortedRequest::Join {
                    left: first,
                    right: next,
                    how,
                };
                (request, matches!(how.format, RowFormat::Csv))
            }
            1 => {
                let how = SortedChanges::Json {
                    columns: self.picked(),
                    sameness: self.sameness(),
                };
                (sorted_diff(first, next, how), false)
            }
            _ => (sorted_diff(first, next, SortedChanges::Csv), true),
        };
        let (delimiter, other) = (self.delimiter(), self.delimiter());
        let form = self.form(delimiter, other);
        let settings = self.settings(self.with_heading(form, has_csv), Look::PLAIN, false);
        Command::Sorted {
            layout: settings.layout(),
            request,
            wanted: Wanted::Answer,
        }
    }

    fn lookup(&mut self) -> Command<'static> {
        let (left, right, format) = (self.text(&FILES), self.text(&FILES), self.row_format());
        let (delimiter, next) = (self.delimiter(), self.delimiter());
        let form = self.form(delimiter, next);
        let form = self.with_heading(form, matches!(format, RowFormat::Csv));
        let kind = match self.random.below(3) {
            0 => LookupKind::Left,
            1 => LookupKind::Inner,
            _ => LookupKind::Anti,
        };
        Command::Lookup {
            layout: self.settings(form, Look::PLAIN, false).layout(),
            request: Lookup {
                left,
                right,
                how: Finding {
                    kind,
                    names: self.names("side"),
                    format,
                },
            },
        }
    }

    fn overlay(&mut self, alloc: Global) -> Result<Command<'static>, AllocError> {
        let delimiter = self.delimiter();
        let form = self.form(delimiter, delimiter);
        let has_cells = self.coin();
        let groups = !has_cells && self.coin();
        let settings = self.settings(self.with_heading(form, true), Look::PLAIN, groups);
        let mut files = Vec::new(alloc);
        for _ in 0..self.random.below(3).saturating_add(2) {
            let file = self.text(&FILES);
            files.push(NamedFile { file, delimiter })?;
        }
        Ok(Command::Overlay {
            settings: Settings {
                renames: None,
                ..settings
            },
            request: Overlay {
                files,
                layer: if has_cells { Layer::Cells } else { Layer::Rows },
            },
        })
    }

    fn command(&mut self, alloc: Global) -> Result<Command<'static>, AllocError> {
        Ok(match self.random.below(8) {
            0 => self.diff(),
            7 => self.row_diff(),
            1 => self.apply(),
            2 => self.merge(),
            3 => self.join(),
            4 => self.sorted(),
            5 => self.lookup(),
            _ => self.overlay(alloc)?,
        })
    }

    // A line. Where the status alone is wanted, there is no file for the answer.
    fn line(&mut self, alloc: Global) -> Result<Line<'static>, AllocError> {
        let command = self.command(alloc)?;
        let is_quiet = matches!(
            command,
            Command::Whole {
                wanted: Wanted::Status,
                ..
            }
        );
        Ok(Line::Asked {
            asked: Asked::Answer {
                command,
                output: if is_quiet || self.coin() {
                    None
                } else {
                    Some("-o")
                },
            },
            progress: if self.coin() {
                Progress::Shown
            } else {
                Progress::LeftOut
            },
        })
    }
}

fn sorted_diff(
    old: &'static str,
    new: &'static str,
    how: SortedChanges<'static>,
) -> SortedRequest<'static> {
    SortedRequest::Diff { old, new, how }
}

#[test]
fn lines_are_read_back_from_their_plain_words(rt: HostRuntime) -> Result<(), AllocError> {
    let alloc = rt.alloc();
    let mut picker = Picker {
        random: Random::new(20_261_130),
    };
    for _ in 0..400_u32 {
        let line = picker.line(alloc)?;
        let words = words_of(alloc, &line)?;
        let asked = format!(in alloc; "{line:?}")?;
        match parse(alloc, &words, Terminal::NONE) {
            Ok(read) => {
                let read = format!(in alloc; "{read:?}")?;
                assert!(rt; read == asked, "{words:?}\n{read}\n{asked}");
            }
            Err(error) => assert!(rt; false, "{words:?}\n{error}"),
        }
    }
    Ok(())
}
