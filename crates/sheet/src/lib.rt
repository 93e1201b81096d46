// Sheets: a table of recipes is opened in a lent memory, told which places are to be equal, looked at, and sealed.
#![tactic(auto)]

mod answers;
mod calls;
mod comparing;
mod forests;
mod laws;
mod layout;
mod looking;
mod open_sheet;
mod opening;
mod playing;
mod sealed_sheet;
mod seeing;
mod spots;
mod telling;
mod walking;

pub use calls::{Call, Calls, Look, Tell};
pub use laws::{answers_are_of_the_table, calls_are_the_allowed_lists};
pub use open_sheet::{OpenSheet, open};
pub use playing::play;
pub use sealed_sheet::SealedSheet;
