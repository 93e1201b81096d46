// What a table that is read needs to pass `check`, for every type of leaves.
ghost use Rattle.notation.specs.ValidTables.{CountedTablesValid, ReadTablesValid};

// A table that is read is valid exactly where it has at most 512 places and 64 names, its list at most 512 leaves and one for each
// leaf word, and no place stands below more than 64 binders. The table of (lambda (a) X) is valid, and that of 64 binds, one
// inside the other, too; one of 65 is not, since its last place is too deep, nor is one of 65 names, since the number of the
// last is 64.
pub fn read_tables_are_valid<L>()
    ensures recipes { ReadTablesValid L }
    ensures counts { CountedTablesValid L }
{}
