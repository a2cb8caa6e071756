//! What a whole command line wants: the answer to a command, or what git does with tables.

use crate::merging::Merging;
use crate::request::{Command, Comparing, Settings};

/// What a command line wants.
#[derive(Drop, Debug)]
pub enum Asked<'a> {
    /// The answer to a command, in this file or else on the standard output.
    Answer {
        command: Command<'a>,
        output: Option<&'a str>,
    },
    /// What git shows of a table that changed.
    GitDiff {
        settings: Settings<'a>,
        how: Comparing<'a>,
        diff: GitDiff<'a>,
    },
    /// What git shows of a table that changed and can't be opened, since the name of its file is not UTF-8.
    GitUnopened {
        diff: GitDiff<'a>,
    },
    /// What git shows of a table that is in conflict, and so has no two versions to compare.
    GitUnmerged {
        path: &'a str,
    },
    /// Two versions merged over their base, into the file of ours, as git wants it of a driver of merges.
    GitMerge {
        settings: Settings<'a>,
        how: Merging<'a>,
        merge: GitMerge<'a>,
    },
    /// How git is told of both.
    GitSetup {
        setup: GitSetup<'a>,
    },
}

/// The two versions of a table that git has compared, and its path; the new one is another where it was renamed.
#[derive(Clone, Copy, Debug)]
pub struct GitDiff<'a> {
    pub path: &'a str,
    pub renamed: Option<&'a str>,
    pub old: &'a str,
    pub new: &'a str,
}

/// The files of the three versions that git has merged, and the path of the table, if git gives it.
#[derive(Clone, Copy, Debug)]
pub struct GitMerge<'a> {
    pub base: &'a str,
    pub ours: &'a str,
    pub theirs: &'a str,
    pub path: Option<&'a str>,
}

/// How git is told of the commands that it calls, and for which tables.
#[derive(Drop, Debug)]
pub struct GitSetup<'a> {
    /// The options with which it compares versions, as words of a command line.
    pub diff: Vec<String>,
    /// Those with which it merges them.
    pub merge: Vec<String>,
    /// The patterns of the paths of these tables, as git reads them; none stands for all files of CSV.
    pub patterns: Vec<&'a str>,
}
