// Laws of sheets.
ghost use Rattle.sheet.specs.SheetLaws.{AlikeOfTheTable, CallsAllowed, RightOfTheTable};

use recipe::Leaf;

/// The contracts of a sheet's calls speak of the sheet's own table, whose leaves are numbers. What is right there is right of the
/// table that the sheet was opened from: a history that is right on the one is right on the other, and so is an answer to
/// `alike`.
pub fn answers_are_of_the_table<L: Leaf>()
    ensures history { RightOfTheTable L.equates }
    ensures alike { AlikeOfTheTable L.equates }
{}

/// The calls that `Calls` holds are tells and looks in any order, and then nothing, or one seal and looks after it; and each list of
/// that form is a list of such calls, and perhaps one of looks after the seal.
pub fn calls_are_the_allowed_lists()
    ensures { CallsAllowed }
{}
