//! Tables of truth values by handle, and lists of handles.

ghost use Rattle.std.specs.Prelude.{◌≡◌, ◌<◌, ◌≤◌, false, not, length, position, MatchOption};
ghost use Rattle.std.specs.Prelude.{slice_index_or, slice_set};
ghost use Rattle.registers.specs.Meaning.{counted};
ghost use Rattle.registers.specs.Answers.{distinct};
ghost use Rattle.registers.specs.Handles.{free_from};
ghost use Rattle.registers.specs.Journal.{padded};

/// What the table has for a handle, false past its end.
pub fn holds(table: &[bool], handle: u8) -> bool
    ensures { result ≡ slice_index_or table.now handle false }
{
    table.get(handle as usize).copied().unwrap_or(false)
}

/// Writes the place of a handle; past the table's end there is none.
pub fn put(table: &mut [bool], handle: u8, value: bool)
    ensures { table.new ≡ slice_set table.old handle value }
{
    if (handle as usize) < table.len() {
        table[handle as usize] = value;
    }
}

/// How many places are true.
pub fn count(table: &[bool]) -> usize
    ensures { result ≡ counted table.now }
{
    table.iter().filter(|value| **value).count()
}

/// The first place that is false.
pub fn first_free(table: &[bool]) -> Option<usize>
    ensures { result ≡ position not table.now }
{
    table.iter().position(|value| !value)
}

/// The first place from a start on that is false.
pub fn free_from(table: &[bool], start: usize) -> Option<usize>
    ensures { MatchOption result
        (length table.now ≤ free_from table.now start)
        (λ place. (place ≡ free_from table.now start) × (place < length table.now)) }
{
    let after = first_free(table.get(start..)?)?;
    Some(start + after)
}

/// The operands of a gate in front, 0 after the last.
pub fn operands(on: &[u8]) -> [u8; 3]
    ensures { result ≡ padded on.now }
{
    let operand = |place: usize| on.get(place).copied().unwrap_or(0);
    [operand(0), operand(1), operand(2)]
}

/// Whether no handle stands twice in the list.
pub fn are_distinct(on: &[u8]) -> bool
    ensures { result ≡ distinct on.now }
{
    let mut rest = on;
    while let Some((handle, others)) = rest.split_first() {
        if others.contains(handle) {
            return false;
        }
        rest = others;
    }
    true
}
