// Grade recipes: the rules of matching them, tables of recipes and their check, kinds of leaves and how leaves are numbered, short spellings.
#![tactic(auto)]

mod alike;
mod answers;
mod checker;
mod checking;
mod equality;
mod labels;
mod leaf;
mod numbering;
mod packing;
mod places;
mod refusals;
mod spelling;
mod table_laws;

pub use alike::alike_is_exact;
pub use answers::{
    accepted_tells_have_a_filling, answers_are_exact, answers_are_unique,
    right_histories_keep_the_promise,
};
pub use checking::{check, name_count};
pub use equality::{
    binders_rename, covered_binders_rename, equality_is_an_equivalence, none_at_covered,
};
pub use labels::{Finding, Label};
pub use leaf::Leaf;
pub use numbering::leaf_number;
pub use packing::pack;
pub use places::{Kind, Place, UnknownKind};
pub use refusals::Refusal;
pub use spelling::{PackedSpelling, before_zero, spellings_are_printed};
pub use table_laws::tables_are_read_by_parts;
