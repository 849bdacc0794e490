//! What is wrong with a schedule, in words.

ghost use Rattle.explain_files.specs.Telling.{IsInLine};

use crate::explaining::Finding;
use crate::line::Wanted;

/// What is wrong, in words; where `cells` is true, those of cells are among them.
pub(crate) fn words(finding: Finding, cells: bool) -> &'static str
    ensures { IsInLine result.now }
{
    match finding {
        Finding::TooLong => "a schedule has at most 1048576 bytes",
        Finding::BadByte =>
            "no schedule has this byte: a schedule has newlines and the bytes 32 to 126",
        Finding::Unwanted(wanted) => wanted_words(wanted, cells),
        Finding::NoVariable => "no variable of this name is declared",
        Finding::NoTable => "no table of this name is declared",
        Finding::NoCell => "the table has no cell of this number",
        Finding::NoTask => "there is no task of this number",
    }
}

fn wanted_words(wanted: Wanted, cells: bool) -> &'static str
    ensures { IsInLine result.now }
{
    match wanted {
        Wanted::Line =>
            "a line is wanted: begin A, read A X, commit A, drop A, first A X, value A, second A, ask A, word, \
                again A or move A",
        Wanted::Task => "the number of a task is wanted, and then the end of the line",
        Wanted::TaskAndVariable if cells =>
            "the number of a task is wanted, and then the name of a variable, or a cell as NAME[INDEX]",
        Wanted::TaskAndVariable =>
            "the number of a task is wanted, and then the name of a variable",
        Wanted::Variable if cells =>
            "the name of a variable, or a cell as NAME[INDEX], is wanted, and then the end of the line",
        Wanted::Variable => "the name of a variable is wanted, and then the end of the line",
        Wanted::Newline => "a newline is wanted: each line ends with one",
    }
}
