//! Rows laid out for a terminal: cells lined up under their names, with a word before the versions of a row, and a colour for each.
#![tactic(auto)]

mod lined_up;

pub use lined_up::{
    Colour, Grid, Line, heading, heading_of_picked, line_under, line_up, put_both, put_picked,
    put_shown, put_version, widths_of,
};
