// The sealed sheet.
ghost use Rattle.std.specs.Prelude.{◌≡◌, ◌≤◌, ◌*◌, [], false, is_ok, length, nat_eq};
ghost use Rattle.recipe.specs.Alike.{Alikes};
ghost use Rattle.recipe.specs.Fillings.{Satisfiable};
ghost use Rattle.recipe.specs.Looks.{Looks};
ghost use Rattle.sheet.specs.Sheet.{numbers, pair_words, table};

use crate::{comparing, looking};
use recipe::{Finding, Refusal};
use std::marker::Model;

/// A sheet that takes no tells any more. It reads its memory, and writes none of it. To tell it more, open a new sheet and tell
/// that one these pairs. docs/RULES.md, "Sheets".
#[derive(Drop)]
pub struct SealedSheet<'m> {
    pub(crate) memory: &'m [u32],
    pub(crate) size: usize,
    pub(crate) names: usize,
    pub(crate) leaves: usize,
    pub(crate) standing: usize,
    pub(crate) opened: Result<(), Refusal>,
}

impl<'m> Model for SealedSheet<'m> {
    ghost use Rattle.sheet.specs.Sheet.{Sheet};
    ghost use Rattle.sheet.specs.Views.{Sound, sheet_in};

    ghost Value = { Sheet };

    ghost view = { λ s. sheet_in s.size s.names s.leaves s.standing s.opened s.memory.now };

    ghost invariant = { λ s. Sound s.size s.names s.standing s.opened s.memory.now };
}

impl<'m> SealedSheet<'m> {
    /// What stands at the end of a path from a place, as `OpenSheet::look` says. docs/RULES.md, "Look".
    pub fn look(&self, place: usize, path: &[u8]) -> Result<Finding, Refusal>
        ensures found { Looks nat_eq (table self.now) (numbers self.now) self.now.told place path.now result }
        ensures filled { Satisfiable nat_eq (table self.now) self.now.told }
    {
        looking::look(self.memory, self.size, self.names, self.leaves, place, path)
    }

    /// Whether the recipes at two places are equal in their scopes, as `OpenSheet::alike` says. docs/RULES.md, "Alike".
    pub fn alike(&self, p: usize, q: usize) -> Result<bool, Refusal>
        ensures { Alikes nat_eq (table self.now) p q result }
    {
        comparing::alike(self.memory, self.size, p, q)
    }

    /// How many tells are accepted, at most 512: half as many as there are words of pairs.
    pub fn standing(&self) -> usize
        ensures tells { result ≡ length self.now.told }
        ensures few { result ≤ 512 }
        ensures half { 2 * result ≡ length (pair_words self.now.told) }
    {
        self.standing
    }

    /// Why the table was not opened, if it was not, as `OpenSheet::opened` says. docs/RULES.md, "Sheets".
    pub fn opened(&self) -> Result<(), Refusal>
        ensures why { result ≡ self.now.opened }
        ensures none { is_ok result ≡ false → self.now.forms ≡ [] }
    {
        self.opened
    }

    /// The accepted tells, in order: the part of the sheet's own memory that holds them, two words a tell, each the number of a
    /// place.
    pub fn pairs(&self) -> &'m [u32]
        ensures words { result.now ≡ pair_words self.now.told }
        ensures twice { length result.now ≡ 2 * length self.now.told }
        ensures filled { Satisfiable nat_eq (table self.now) self.now.told }
    {
        let (pairs, _) = self.memory.split_at(2 * self.standing);
        pairs
    }
}
