//! What the help of a command has beside its options: the groups that these stand in, and an example.

/// The heading below which the help shows an option, unless it stands alone.
pub fn group_of(option: &str) -> Option<&'static str> {
    match option {
        "key"
        | "key-row"
        | "group"
        | "keep-order"
        | "sorted"
        | "rename"
        | "reverse"
        | "partial"
        | "numbers"
        | "tolerance"
        | "decimal-comma"
        | "ignore-case"
        | "trim"
        | "kind"
        | "by-cell"
        | "cells" => Some("Which rows are the same, and which come out"),
        "delimiter"
        | "left-delimiter"
        | "right-delimiter"
        | "comment"
        | "skip"
        | "no-header"
        | "ragged"
        | "lenient" => Some("How files are read"),
        "format"
        | "color"
        | "only"
        | "ignore"
        | "limit"
        | "all-columns"
        | "width"
        | "summary"
        | "conflicts"
        | "prefer"
        | "prefix"
        | "side"
        | "quiet"
        | "output"
        | "no-heading"
        | "no-progress" => Some("What is printed"),
        _ => None,
    }
}

/// An example of a command, as the last lines of its help.
pub fn example_of(command: &str) -> &'static str {
    match command {
        "diff" => "Example: keyed diff old.csv new.csv -k id --ignore updated",
        "apply" => "Example: keyed diff old.csv new.csv --format csv | keyed apply old.csv -",
        "merge" => "Example: keyed merge base.csv ours.csv theirs.csv --by-cell -o merged.csv",
        "join" => "Example: keyed join left.csv right.csv -k id --kind inner",
        "lookup" => "Example: keyed lookup orders.csv customers.csv -k customer_id=id",
        "overlay" => "Example: keyed overlay site.csv user.csv --cells",
        "cut" => "Example: keyed cut old.csv new.csv --into parts --memory 500M",
        "git-setup" => "Example: keyed git-setup -k id 'prices*.csv' | sh",
        _ => "git calls this command: see keyed git-setup --help",
    }
}
