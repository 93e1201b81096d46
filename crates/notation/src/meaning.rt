// What a table that is read means, for every type of leaves.
ghost use Rattle.std.specs.Prelude.{List};
ghost use Rattle.notation.specs.Grammar.{Tree};
ghost use Rattle.notation.specs.Meaning.{CountedTablesMean, NumbersTell, ReadTablesMean};

// The roots of a table that is read are the places of the recipes of its text, in order. With its holes filled, the text at the
// n-th root is the n-th recipe, with its own holes filled, its leaf words as they are read, and its names by their numbers. So a
// filling satisfies a pair of roots exactly where it makes the two recipes equal. The text (lambda (a) X) (lambda (b) b) has the
// roots 0 and 2, and its names are a, with the number 0, and b. Where X is filled with the name 0 the recipes are
// (lambda (a) a) and (lambda (b) b), and the pair (0, 2) is satisfied; with the name 1 the first is (lambda (a) b), and it is not.
pub fn read_tables_mean_their_recipes<L>()
    ensures recipes { ReadTablesMean L }
    ensures counts { CountedTablesMean L }
    ensures numbers { (ts : List Tree) → NumbersTell ts }
{}
