//! The sections of a stored program, and which line leads from one to the next.

ghost use Rattle.std.specs.Prelude.{◌≡◌};
ghost use Rattle.reader.specs.Lines.{said_by, section_after};

use crate::cells::numbers;
use crate::faults::ReadReason;
use crate::lines::Record;

/// The part of the text that a line stands in.
#[derive(Clone, Copy, Drop)]
pub enum Section {
    Header,
    Types,
    Terms,
    /// After the end line, which counts so many kinds and ops.
    End(u16, u16),
}

/// The section after a line, where the line is allowed and its counts are numbers.
#[inline(always)]
pub fn next_section(section: Section, line: Record) -> Result<Section, ReadReason>
    ensures { result ≡ section_after section (said_by line.entry) }
{
    match (section, line) {
        (Section::Header, Record::Header) => Ok(Section::Types),
        (Section::Header, _) => Err(ReadReason::Header),
        (Section::Types, Record::Kind(_)) => Ok(Section::Types),
        (Section::Types | Section::Terms, Record::Term(_, _, _)) => Ok(Section::Terms),
        (Section::Types | Section::Terms, Record::Counts(kinds, ops)) => {
            let (kinds, ops) = numbers(kinds, ops)?;
            Ok(Section::End(kinds, ops))
        }
        _ => Err(ReadReason::Line),
    }
}
