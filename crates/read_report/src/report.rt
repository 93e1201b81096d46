// The report on a text.
ghost use Rattle.std.specs.Prelude.{IfOk};
ghost use Rattle.read_report.specs.Report.{Reports};

use crate::lines::Lent;
use leaves::Symbol;
use notation::read_recipes;
use recipe::Place;
use std::alloc::{AllocError, Global};

// The report on how a text is read, into lists of 64 places, 16 names, 64 holes and 64 symbols.
pub fn report_on(heap: Global, text: &[u8]) -> Result<Vec<u8>, AllocError>
    ensures { IfOk result (λ v. Reports text.now v.items) }
{
    let mut places = [Place::nil(); 64];
    let mut names = [0; 16];
    let mut holes = [0; 64];
    let mut leaves = [Symbol { packed: 0 }; 64];
    let answer = read_recipes(text, &mut places, &mut names, &mut holes, &mut leaves);
    let lists = Lent {
        places: &places,
        names: &names,
        holes: &holes,
        leaves: &leaves,
    };
    lists.report(heap, answer)
}
