// The open sheet, and how it is opened from a table.
ghost use Rattle.std.specs.Prelude.{◌≡◌, ◌≤◌, ◌++◌, [], drop, false, is_ok, length, nat_eq};
ghost use Rattle.recipe.specs.Checking.{checked};
ghost use Rattle.recipe.specs.Alike.{Alikes};
ghost use Rattle.recipe.specs.Fillings.{Satisfiable};
ghost use Rattle.recipe.specs.Histories.{accepted_pair, opening_answer, sheet_table};
ghost use Rattle.recipe.specs.Looks.{Looks};
ghost use Rattle.recipe.specs.Tells.{Tells};
ghost use Rattle.closure.specs.OtherLeaves.{SameTables};
ghost use Rattle.sheet.specs.Opening.{numbered_forms, words_taken};
ghost use Rattle.sheet.specs.Sheet.{numbers, table};

use crate::opening::open_checked;
use crate::sealed_sheet::SealedSheet;
use crate::{comparing, looking, telling};
use recipe::{Finding, Leaf, Place, Refusal};
use std::marker::Model;

/// A table that is opened in a lent memory and takes tells: pairs of places that are to be equal. It keeps those that it
/// accepted, and there always is a filling that satisfies them all. docs/RULES.md, "Sheets".
#[derive(Drop)]
pub struct OpenSheet<'m> {
    pub(crate) memory: &'m mut [u32],
    pub(crate) size: usize,
    pub(crate) names: usize,
    pub(crate) leaves: usize,
    pub(crate) standing: usize,
    pub(crate) opened: Result<(), Refusal>,
}

impl<'m> Model for OpenSheet<'m> {
    ghost use Rattle.sheet.specs.Sheet.{Sheet};
    ghost use Rattle.sheet.specs.Views.{Sound, sheet_in};

    ghost Value = { Sheet };

    ghost view = { λ s. sheet_in s.size s.names s.leaves s.standing s.opened s.memory.now };

    ghost invariant = { λ s. Sound s.size s.names s.standing s.opened s.memory.now };
}

/// Opens a table over a list of leaves in a lent memory, of 32-bit words. Each leaf is numbered by the first of the list that is
/// the same. The table and the leaves are not read afterwards.
///
/// The memory needs as many words as `check` asks for; what it holds does not matter. Words past these stay as they are, as long
/// as the sheet is there; to know of them afterwards, lend only the first ones, as `play` does.
/// Where `check` refuses the table (1 to 6), or the memory is shorter (7), no word is written, and the sheet has no places:
/// `opened` says why. docs/RULES.md, "Sheets".
pub fn open<'m, L: Leaf>(places: &[Place], leaves: &[L], memory: &'m mut [u32]) -> OpenSheet<'m>
    ensures opened { result.opened ≡ opening_answer (length memory.old) (checked places.now leaves.now) }
    ensures forms { let T = sheet_table places.now leaves.now (length memory.old) in
        result.forms ≡ numbered_forms L.equates T leaves.now }
    ensures table { let T = sheet_table places.now leaves.now (length memory.old) in
        SameTables L.equates nat_eq T (table result) leaves.now (numbers result) }
    ensures leaves { result.leaves ≡ length leaves.now }
    ensures told { result.told ≡ [] }
    ensures beyond { let taken = words_taken places.now leaves.now (length memory.old) in
        result.beyond ≡ drop taken memory.old }
{
    let names = match open_checked(memory, places, leaves) {
        Ok(names) => names,
        Err(refusal) => {
            return OpenSheet {
                memory,
                size: 0,
                names: 0,
                leaves: leaves.len(),
                standing: 0,
                opened: Err(refusal),
            };
        }
    };
    OpenSheet {
        memory,
        size: places.len(),
        names,
        leaves: leaves.len(),
        standing: 0,
        opened: Ok(()),
    }
}

impl<'m> OpenSheet<'m> {
    /// Tells that two places are to be equal, each in its own scope. Accepted exactly where one filling of the holes satisfies this
    /// and all tells accepted before; it is then kept, after these.
    ///
    /// Refused are a place past the end (11, the first such), places of unequal depth (12), and a tell after 512 accepted ones
    /// (13); else, where there is no such filling, linked places that clash (14), or a place that comes back to itself (15), or
    /// names that cannot agree (16), each with its places. A refused tell changes nothing. docs/RULES.md, "Tell".
    pub fn tell(&mut self, p: usize, q: usize) -> Result<(), Refusal>
        ensures told { Tells nat_eq (table self.old) self.old.told p q result }
        ensures sheet { self.new ≡ record self.old { told = self.old.told ++ accepted_pair p q result } }
        ensures filled { Satisfiable nat_eq (table self.new) self.new.told }
    {
        telling::tell(self.memory, self.size, self.names, self.standing, p, q)?;
        self.standing += 1;
        Ok(())
    }

    /// What stands at the end of a path from a place, under every filling that satisfies the accepted tells: a label that all
    /// of them have there, absent where none has the spot, else open. A step of the path is a byte: 0 goes to the left part of
    /// a call, 1 to the right one, 2 to the inside of a bind. A leaf has its number in the list that the sheet was opened with.
    ///
    /// Refused are a place past the end (11), and then the first byte above 2, also past a step that leads nowhere (17, with its
    /// index). Nothing is written. docs/RULES.md, "Look".
    pub fn look(&self, place: usize, path: &[u8]) -> Result<Finding, Refusal>
        ensures found { Looks nat_eq (table self.now) (numbers self.now) self.now.told place path.now result }
        ensures filled { Satisfiable nat_eq (table self.now) self.now.told }
    {
        looking::look(self.memory, self.size, self.names, self.leaves, place, path)
    }

    /// Whether the recipes at two places of equal depth are equal, each in its own scope, whatever was told: binders may have
    /// different names, and each name means its innermost binder.
    ///
    /// Refused are a place past the end (11, the first such), places of unequal depth (12), and recipes that are not finished (18,
    /// with the lowest hole at or under either place). Nothing is written. docs/RULES.md, "Alike".
    pub fn alike(&self, p: usize, q: usize) -> Result<bool, Refusal>
        ensures { Alikes nat_eq (table self.now) p q result }
    {
        comparing::alike(self.memory, self.size, p, q)
    }

    /// How many tells are accepted, at most 512.
    pub fn standing(&self) -> usize
        ensures tells { result ≡ length self.now.told }
        ensures few { result ≤ 512 }
    {
        self.standing
    }

    /// Why the table was not opened, if it was not: the refusal of `check` (1 to 6), or `MemoryTooShort` (7). Such a sheet has no
    /// places. docs/RULES.md, "Sheets".
    pub fn opened(&self) -> Result<(), Refusal>
        ensures why { result ≡ self.now.opened }
        ensures none { is_ok result ≡ false → self.now.forms ≡ [] }
    {
        self.opened
    }

    /// The same sheet, which takes no tells any more, and hands out its pairs.
    pub fn seal(self) -> SealedSheet<'m>
        ensures { result ≡ self.entry }
    {
        let OpenSheet {
            memory,
            size,
            names,
            leaves,
            standing,
            opened,
        } = self;
        SealedSheet {
            memory,
            size,
            names,
            leaves,
            standing,
            opened,
        }
    }
}
