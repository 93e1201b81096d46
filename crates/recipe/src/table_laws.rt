// What the rules say of valid tables, for every type of leaves.
ghost use Rattle.recipe.specs.TableLaws.{TableLaws};

// A valid table is read by parts: the filled text of a place is made of those of its parts, a root has the empty scope, a
// part has the scope of its holder with the binder that it stands under, and every place is a root or a part. In the
// table of (lambda (a) X) place 0 is a root, and place 1 is its part and has a in its scope. A table in which two binds
// hold one place is not valid, and that place does not have the scope of both.
pub fn tables_are_read_by_parts<L>()
    ensures { TableLaws L }
{}
