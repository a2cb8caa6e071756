//! What follows of how bytes are escaped, and of which rows a report shows. Calling one of these functions does nothing: its contract gives
//! the caller's proof the law.
ghost use Rattle.keyed_reports.specs.Escapes.{HtmlIsTextLaw};
ghost use Rattle.keyed_reports.specs.RowChanges.{LoneCountLaw, OneRowEachLaw, PairsLaw};
ghost use Rattle.keyed_reports.specs.RowChanges.{ToldDiffersLaw, rows_eq};

/// Among bytes that are escaped for a page of HTML none stands with which a tag begins or ends, or a value in one. Call it where a page is
/// read.
pub fn law_html_is_text()
    ensures { HtmlIsTextLaw }
{}

/// Rows lack another one as often as it stands more often beside them than among them. Call it where the rows that a report tells of groups
/// are counted.
pub fn law_lone_count()
    ensures { LoneCountLaw rows_eq }
{}

/// A row of groups that is told to have changed has other cells than before, so that none is left out where cells are compared as they
/// stand. Call it where a report of groups is read.
pub fn law_told_differs()
    ensures { ToldDiffersLaw rows_eq }
{}

/// Where keys have one row each and these are not the same, `row_changes` shows what is told of them, however cells are compared, if
/// changes whose cells are the same as they are compared are left out before. Call it where a report of rows without groups is read.
pub fn law_one_row_each()
    ensures { OneRowEachLaw rows_eq }
{}

/// Of changes of one row each `row_changes` shows these, without groups. Call it where such changes are known.
pub fn law_pairs<K>()
    ensures { PairsLaw rows_eq K }
{}
