//! The reader: line after line, from the header to the end line.

ghost use Rattle.std.specs.Prelude.{◌≡◌, ◌≤◌, length};
ghost use Rattle.reader.specs.Pieces.{pieces};
ghost use Rattle.reader.specs.Reading.{closed, reading};
ghost use Rattle.reader.specs.Places.{place_after, line_after, place_of};
ghost use Rattle.reader.specs.Sheet.{Answers};
ghost use Rattle.reader.specs.Stored.{Done, Bounded};

use crate::cells::{Front, term_cell, type_cell};
use crate::faults::{ReadFault, ReadReason};
use crate::lines::{Record, record_of};
use crate::parts::parted;
use crate::sections::{Section, next_section};
use calculus::{MOST_TERM_CELLS, MOST_TYPE_CELLS, TermCell, TypeCell};

/// A table of types that cells go into, up to the limit of a program.
type Types<'a> = Front<'a, TypeCell, MOST_TYPE_CELLS>;

/// A table of terms that cells go into, up to the limit of a program.
type Terms<'a> = Front<'a, TermCell, MOST_TERM_CELLS>;

// Takes in a line, whose cell goes behind the earlier ones of its table, and answers the section
// after it.
#[inline(always)]
fn take_line(
    section: Section,
    line: &[u8],
    types: &mut Types<'_>,
    terms: &mut Terms<'_>,
) -> Result<Section, ReadReason>
    ensures same_types { types.new.cells.ghost_name ≡ types.old.cells.ghost_name }
    ensures same_terms { terms.new.cells.ghost_name ≡ terms.old.cells.ghost_name }
    ensures answer { place_after result types.new terms.new
        ≡ (line_after section types.old terms.old line.now).answer }
    ensures types { types.new.cells.now ≡ (line_after section types.old terms.old line.now).types }
    ensures terms { terms.new.cells.now ≡ (line_after section types.old terms.old line.now).terms }
{
    let record = record_of(line);
    let section = next_section(section, record)?;
    match record {
        Record::Kind(kind) => types.push(type_cell(kind)?)?,
        Record::Term(op, argument, claim) => terms.push(term_cell(op, argument, claim)?)?,
        Record::Header | Record::Counts(_, _) | Record::Other => {}
    }
    Ok(section)
}

// The verdict at the end of the text, by what stands after its last ended line.
#[inline(always)]
fn close(
    section: Section,
    rest: &[u8],
    due: usize,
    types: &Types<'_>,
    terms: &Terms<'_>,
) -> Result<(usize, usize), ReadFault>
    requires { 1 ≤ due }
    ensures { result ≡ closed rest.now due (place_of section types.now terms.now) }
{
    let Section::End(kinds, ops) = section else {
        return Err(ReadReason::End.at(due));
    };
    ReadReason::Line.refuse_if(!rest.is_empty(), due)?;
    ReadReason::End.refuse_if(!(types.holds(kinds) && terms.holds(ops)), due - 1)?;
    Ok((types.count(), terms.count()))
}

/// Reads a stored program to the front of two tables, and answers how many cells of each there are.
/// A refused read leaves the cells of the lines before the one at fault. That is the first line
/// that a row of the sheet refuses.
pub fn read(
    text: &[u8],
    types: &mut [TypeCell],
    terms: &mut [TermCell],
) -> Result<(usize, usize), ReadFault>
    ensures answer { result ≡ (reading text.now types.old terms.old).answer }
    ensures types { types.new ≡ (reading text.now types.old terms.old).types }
    ensures terms { terms.new ≡ (reading text.now types.old terms.old).terms }
    ensures stored { Done text.now types.old terms.old result types.new terms.new }
    ensures within { Bounded result types.old terms.old }
    ensures first { Answers (pieces 10 text.now) (length types.old) (length terms.old) result }
{
    let mut types = Types::new(types);
    let mut terms = Terms::new(terms);
    let mut section = Section::Header;
    let mut due = 1;
    let mut rest = text;
    while let Some((line, after)) = parted(rest, b'\n') {
        let next = take_line(section, line, &mut types, &mut terms);
        section = next.map_err(|reason| reason.at(due))?;
        due += 1;
        rest = after;
    }
    close(section, rest, due, &types, &terms)
}
