//! How an answer is written that is a table.
ghost use Rattle.std.specs.Prelude.{◌≡◌};
ghost use Rattle.keyed_requests.specs.AnswerForm.{in_style, is_written, writes_heading};

use crate::request::Form;
use keyed_text::Style;

/// Whether the names of the columns stand before the rows of an answer, where the tables that are read have a header.
#[derive(Clone, Copy, Debug)]
pub enum Heading {
    Written,
    /// They do not, so that the answer can stand after another one.
    Omitted,
}

impl Heading {
    fn is_written(self) -> bool
        ensures { result ≡ is_written self }
    {
        match self {
            Heading::Written => true,
            Heading::Omitted => false,
        }
    }
}

/// How an answer is written beside what it has in common with the tables that are read: whether the names of the columns stand before its
/// rows, and the style of its text. `write_table` writes each part of the style; what is written row by row, as joins and changes are, has
/// its quotes and line ends alone.
#[derive(Clone, Copy, Debug)]
pub struct Writing {
    pub heading: Heading,
    pub style: Style,
}

impl Writing {
    /// The names of the columns first, quotes where they are needed, and LF after each row.
    pub const PLAIN: Writing = Writing {
        heading: Heading::Written,
        style: Style::PLAIN,
    };
}

impl Form {
    /// Whether an answer has the names of its columns.
    pub fn writes_heading(self) -> bool
        ensures { result ≡ writes_heading self }
    {
        self.has_header && self.writing.heading.is_written()
    }

    /// The form with which an answer is written in a style, and which is else this one.
    pub fn in_style(self, style: Style) -> Self
        ensures { result ≡ in_style style self }
    {
        Form {
            writing: Writing {
                heading: self.writing.heading,
                style,
            },
            ..self
        }
    }
}
