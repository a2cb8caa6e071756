//! What follows of the answers of commands, of tables in memory and of texts. Calling one of these functions does nothing: its contract
//! gives the caller's proof the law.
ghost use Rattle.keyed_laws.specs.Laws.{DiffReadsLaw, TakenBackFitsLaw, TakenBackLaw};
ghost use Rattle.keyed_laws.specs.MarkLaws.{MarksLaw};
ghost use Rattle.keyed_laws.specs.OneSide.{OneSideLaw};
ghost use Rattle.keyed_laws.specs.TextLaws.{DiffSaysLaw, DiffedTextByLaw, DiffedTextLaw};
ghost use Rattle.keyed_laws.specs.TextLaws.{OneChangesLaw, OneTableLaw};

/// The text that `diff` writes reads as its heading and the rows of the changes, each after its sign, and as nothing else. Call it where
/// such a text is read.
pub fn law_diff_reads()
    ensures { DiffReadsLaw }
{}

/// A text says one table, and one list of changes, under the same header, names and columns. Call it where two facts say what one text
/// says.
pub fn law_text_once()
    ensures table { OneTableLaw }
    ensures changes { OneChangesLaw }
{}

/// What `diff` writes of two texts says, where it is read as changes, exactly the changes between the tables that the texts say: no row is
/// lost, none comes, and each cell comes back. Call it where such a text is read by the columns of both texts.
pub fn law_diff_says()
    ensures { DiffSaysLaw }
{}

/// What `apply` answers of the first of two texts, and of what `diff` wrote between both, is the text of the table that the second one
/// says under the columns of both, in the order of its keys, and no cell is lost. Each text has a header, in which no name stands twice,
/// and both commands read the first text under the same names and by the same key, as they do where the key is the first column and no
/// column has another name. Call it where changes that `diff` wrote are applied to the text that they are from.
pub fn law_diff_apply_texts()
    ensures by { DiffedTextByLaw }
    ensures plain { DiffedTextLaw }
{}

/// What one side alone changed stands in the table that `merge` makes of three texts row by row, whatever the texts are: under each key at
/// which one version has what the base has, or lacks what it lacks, the table has what the other version has, and lacks what that lacks.
/// Its rows are in the order of their keys, and each key stands once. Call it where three texts are merged, and the answer is a table and
/// no report.
pub fn law_one_side()
    ensures { OneSideLaw }
{}

/// With marks, `merge` makes of three texts the table that it makes without them where no key is in conflict, and else a table with marks and
/// status 1, or a report where a column goes, whatever the texts are. Call it where three texts are merged with marks.
pub fn law_marks()
    ensures { MarksLaw }
{}

/// Changes that are taken back fit the table that they made, and give the rows back that they were made to, whatever the table and the
/// changes are, where they fitted it: the same keys, each with the same rows. Call it where changes are made to a table and then taken back.
pub fn law_taken_back()
    ensures fits { TakenBackFitsLaw }
    ensures back { TakenBackLaw }
{}
