//! A program in the making: its two tables, and the text that stores them.

ghost use Rattle.std.specs.Prelude.{◌≡◌, ◌≤◌, length, min, [], ◌∷◌, ◌++◌, map, vec_len};
ghost use Rattle.std.specs.Prelude.{string_bytes, IfOk, OnOk};
ghost use Rattle.std.specs.Str.{chars};
ghost use Rattle.calculus.specs.Cells.{kind_cell, type_cells, cell_of};
ghost use Rattle.kinds.specs.Kinds.{kind_type};
ghost use Rattle.drafts.specs.Cells.{term_cell, stands, Placed};
ghost use Rattle.drafts.specs.Text.{stored_text};

use calculus::{TermCell, TypeCell};
use kinds::{Kind, write_kind};
use std::alloc::{AllocError, Global};

/// The cells of a program.
#[derive(Drop)]
pub struct Draft {
    pub heap: Global,
    pub types: Vec<TypeCell>,
    pub terms: Vec<TermCell>,
}

/// A place as a claim holds it.
pub fn as_claim(place: usize) -> u16
    ensures { result ≡ min place 65535 }
{
    u16::try_from(place).unwrap_or(u16::MAX)
}

// Whether a type's cells stand in a table from a place on.
fn stands_at(types: &[TypeCell], place: usize, code: &[TypeCell]) -> bool
    requires { place ≤ length types.now }
    ensures { result ≡ stands code.now types.now place }
{
    types[place..].starts_with(code)
}

impl Draft {
    /// No cells yet.
    pub fn new(heap: Global) -> Draft
        ensures { (result.types.items ≡ []) × (result.terms.items ≡ []) }
    {
        Draft {
            heap,
            types: Vec::new(heap),
            terms: Vec::new(heap),
        }
    }

    /// A new place for a type, behind the table.
    pub fn new_place(&mut self, kind: &Kind) -> Result<u16, AllocError>
        ensures place { IfOk result (λ place. place ≡ min (vec_len self.old.types) 65535) }
        ensures types { OnOk result (self.new.types.items
            ≡ self.old.types.items ++ type_cells (kind_type kind.now)) }
        ensures terms { self.new.terms ≡ self.old.terms }
    {
        let end = self.types.len();
        write_kind(kind, &mut self.types)?;
        Ok(as_claim(end))
    }

    /// The first place of the type table where a type stands, or else a new one behind the table.
    pub fn place(&mut self, kind: &Kind) -> Result<u16, AllocError>
        ensures place { IfOk result (λ place. Placed (type_cells (kind_type kind.now))
            self.old.types.items self.new.types.items place) }
        ensures terms { self.new.terms ≡ self.old.terms }
    {
        let mut code = Vec::new(self.heap);
        write_kind(kind, &mut code)?;
        let mut places = 0..self.types.len();
        match places.find(|&place| stands_at(&self.types, place, &code)) {
            Some(place) => Ok(as_claim(place)),
            None => self.new_place(kind),
        }
    }

    /// More type cells, by their letters.
    pub fn kinds(&mut self, letters: &str) -> Result<(), AllocError>
        ensures types { OnOk result (self.new.types.items
            ≡ self.old.types.items ++ map kind_cell (chars letters.now)) }
        ensures terms { self.new.terms ≡ self.old.terms }
    {
        for kind in letters.chars() {
            self.types.push(TypeCell { kind })?;
        }
        Ok(())
    }

    /// More term cells, each by its op, argument and claim.
    pub fn cells(&mut self, cells: &[(char, u16, u16)]) -> Result<(), AllocError>
        ensures terms { OnOk result (self.new.terms.items
            ≡ self.old.terms.items ++ map term_cell cells.now) }
        ensures types { self.new.types ≡ self.old.types }
    {
        for (op, argument, claim) in cells {
            self.cell(*op, *argument, *claim)?;
        }
        Ok(())
    }

    /// One more term cell, which claims a place.
    pub fn cell(&mut self, op: char, argument: u16, claim: u16) -> Result<(), AllocError>
        ensures terms { OnOk result (self.new.terms.items
            ≡ self.old.terms.items ++ (cell_of op argument claim ∷ [])) }
        ensures types { self.new.types ≡ self.old.types }
    {
        self.terms.push(TermCell {
            op,
            argument,
            claim,
        })?;
        Ok(())
    }

    /// The text that stores the cells.
    pub fn text(&self) -> Result<String, AllocError>
        ensures { IfOk result (λ text. string_bytes text
            ≡ stored_text self.now.types.items self.now.terms.items) }
    {
        let mut text = String::from_str(self.heap, "QL\t1\n")?;
        for cell in self.types.iter() {
            writeln!(text, "T\t{}", cell.kind)?;
        }
        for cell in self.terms.iter() {
            writeln!(text, "M\t{}\t{}\t{}", cell.op, cell.argument, cell.claim)?;
        }
        writeln!(text, "E\t{}\t{}", self.types.len(), self.terms.len())?;
        Ok(text)
    }
}
