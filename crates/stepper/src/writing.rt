//! Writes the next term: what a rule leaves, in place of the cells that it applies to.

ghost use Rattle.std.specs.Prelude.{◌≡◌, ◌+◌, ◌*◌, ◌^◌, ◌<◌, ◌≤◌};
ghost use Rattle.std.specs.Prelude.{[], ◌∷◌, length, take, drop, IfSome};
ghost use Rattle.calculus.specs.declared.limits.TheConstants.{MOST_RUNNING_CELLS};
ghost use Rattle.stepper.specs.Laws.{MakesStep};
ghost use Rattle.stepper.specs.Next.{trees, left, next_cells};
ghost use Rattle.stepper.specs.Parts.{taken, after};
ghost use Rattle.stepper.specs.Substitution.{values_of, substitute_cell};
ghost use Rattle.stepper.specs.Writing.{running_cell, answer_cell, overlaid, counted, fronted};

use calculus::{MOST_RUNNING_CELLS, TermCell};
use finder::Rule;
use trees::reach;

/// What the register answered to the step, if it was asked for something.
#[derive(Clone, Copy, PartialEq, Eq, Debug, Drop)]
pub enum Answer {
    /// The rule asks nothing, or a gate, which answers nothing.
    Nothing,
    /// The handle of the qubit that was prepared.
    Handle(u8),
    /// What was read.
    Outcome(bool),
}

// A cell of a running term, which claims nothing.
fn running(op: char, argument: u16) -> TermCell
    ensures { result ≡ running_cell op argument }
{
    TermCell {
        op,
        argument,
        claim: 0,
    }
}

/// The cell that the answer is in a running term: unit for none, a qubit's name or a bit.
impl From<Answer> for TermCell {
    ghost from_gives = { λ answer cell. cell ≡ answer_cell answer };

    fn from(answer: Answer) -> TermCell {
        match answer {
            Answer::Nothing => running('s', 0),
            Answer::Handle(handle) => running('q', u16::from(handle)),
            Answer::Outcome(true) => running('1', 0),
            Answer::Outcome(false) => running('0', 0),
        }
    }
}

// The tree that the cells begin with, and the cells after it; all, where it does not end.
fn split_tree(cells: &[TermCell]) -> (&[TermCell], &[TermCell])
    ensures tree { result.0.now ≡ taken 1 cells.now }
    ensures rest { result.1.now ≡ after 1 cells.now }
{
    let len = reach(cells, 0).unwrap_or(cells.len());
    cells.split_at(len)
}

// Writes cells over a table from a place on, as far as the table goes.
fn overlay(table: &mut [TermCell], at: usize, cells: &[TermCell])
    ensures { table.new ≡ overlaid table.old at cells.now }
{
    if at < table.len() {
        let len = cells.len().min(table.len() - at);
        table[at..at + len].copy_from_slice(&cells[..len]);
    }
}

// Writes a cell at a place of a table, if the table goes so far.
fn overlay_one(table: &mut [TermCell], at: usize, cell: TermCell)
    ensures { table.new ≡ overlaid table.old at (cell ∷ []) }
{
    if at < table.len() {
        table[at] = cell;
    }
}

// Cells that are put at the front of a table, one behind the other. They are counted, and written
// as far as the table goes. There are never more than a running term may have. Where the table is
// empty, cells are only counted.
#[derive(Drop)]
struct Front<'a> {
    table: &'a mut [TermCell],
    len: usize,
    ghost few: { len ≤ MOST_RUNNING_CELLS },
}

impl Front<'_> {
    ghost use Rattle.stepper.specs.Front.{Puts, PutsTrees};

    // Puts a cell behind those that are there; nothing where a running term may not have so many.
    fn put_one(&mut self, cell: TermCell) -> Option<()>
        ensures { Puts result self.old self.new (cell ∷ []) }
    {
        if self.len >= MOST_RUNNING_CELLS {
            return None;
        }
        overlay_one(self.table, self.len, cell);
        self.len += 1;
        Some(())
    }

    // Puts cells behind those that are there; where a running term may not have so many, only the
    // first of them, and nothing is answered.
    fn put(&mut self, cells: &[TermCell]) -> Option<()>
        ensures { Puts result self.old self.new cells.now }
    {
        let few = cells.len().min(MOST_RUNNING_CELLS - self.len);
        overlay(self.table, self.len, &cells[..few]);
        self.len += few;
        (few == cells.len()).then_some(())
    }

    // Puts what stands for a cell under `depth` binders, around which are those of the values:
    // itself, a value, or the variable that it is without their binders.
    fn put_cell(&mut self, cell: TermCell, depth: usize, values: &[&[TermCell]]) -> Option<()>
        ensures { Puts result self.old self.new
            (substitute_cell (values_of values.now) depth cell) }
    {
        let index = cell.argument as usize;
        if cell.op != 'v' || index < depth {
            return self.put_one(cell);
        }
        match values.get(index - depth) {
            Some(value) => self.put(value),
            None => self.put_one(running('v', cell.argument - values.len() as u16)),
        }
    }

    // Puts what stands for the tree that the cells begin with, which has `depth` binders around it
    // within those of the values, the nearer first. Answers the cells after the tree.
    fn substitute<'c>(
        &mut self,
        cells: &'c [TermCell],
        depth: usize,
        values: &[&[TermCell]],
    ) -> Option<&'c [TermCell]>
        requires { depth + 2 * length cells.now < 2 ^ 64 }
        ensures { PutsTrees result self.old self.new (values_of values.now) (depth ∷ []) cells.now }
    {
        let [cell, rest @ ..] = cells else {
            return Some(cells);
        };
        self.put_cell(*cell, depth, values)?;
        match cell.op {
            'l' => self.substitute(rest, depth + 1, values),
            'a' | 'p' => {
                let second = self.substitute(rest, depth, values)?;
                self.substitute(second, depth, values)
            }
            'd' => {
                let body = self.substitute(rest, depth, values)?;
                self.substitute(body, depth + 2, values)
            }
            'i' => {
                let second = self.substitute(rest, depth, values)?;
                let third = self.substitute(second, depth, values)?;
                self.substitute(third, depth, values)
            }
            _ => Some(rest),
        }
    }

    // Puts what the rule leaves of the trees of its redex, with which the cells begin. Answers the
    // cells after the trees.
    fn put_left<'c>(
        &mut self,
        cells: &'c [TermCell],
        rule: Rule,
        answer: Answer,
    ) -> Option<&'c [TermCell]>
        ensures put { Puts result self.old self.new (left rule answer cells.now) }
        ensures after_trees { IfSome result (λ rest. rest.now ≡ after (trees rule) cells.now) }
    {
        let (first, rest) = split_tree(cells);
        match rule {
            Rule::Function => {
                let (value, rest) = split_tree(rest);
                self.substitute(cells, 0, &[value])?;
                Some(rest)
            }
            Rule::Pair => {
                let (second, body) = split_tree(rest);
                self.substitute(body, 0, &[second, first])
            }
            Rule::Then => {
                self.put(first)?;
                Some(split_tree(rest).1)
            }
            Rule::Else => {
                let (second, rest) = split_tree(rest);
                self.put(second)?;
                Some(rest)
            }
            Rule::Prepare | Rule::Read => {
                self.put_one(TermCell::from(answer))?;
                Some(rest)
            }
            Rule::Gates => {
                self.put(first)?;
                Some(rest)
            }
        }
    }
}

// The cells before a redex, and those past its first two, which begin with its trees; none, where
// there are no more.
fn split_redex(cells: &[TermCell], at: usize) -> (&[TermCell], &[TermCell])
    ensures before { result.0.now ≡ take at cells.now }
    ensures trees { result.1.now ≡ drop (at + 2) cells.now }
{
    let (before, redex) = cells.split_at(at.min(cells.len()));
    match redex {
        [_, _, trees @ ..] => (before, trees),
        _ => (before, &[]),
    }
}

/// Counts the cells of the next term, which the rule makes at a cell with the register's answer,
/// and writes them over the table from its front, as far as it goes. Where a running term may not
/// have so many, nothing is answered, and as many as it may have are written.
pub fn put_next(
    cells: &[TermCell],
    rule: Rule,
    at: usize,
    answer: Answer,
    table: &mut [TermCell],
) -> Option<usize>
    ensures answer { result ≡ counted (next_cells cells.now rule at answer) }
    ensures table { table.new
        ≡ overlaid table.old 0 (take MOST_RUNNING_CELLS (next_cells cells.now rule at answer)) }
{
    let (before, trees) = split_redex(cells, at);
    let mut front = Front { table, len: 0 };
    front.put(before)?;
    let rest = front.put_left(trees, rule, answer)?;
    front.put(rest)?;
    Some(front.len)
}

/// Counts the cells of the next term, and writes it to the front of the table if that is long
/// enough; nothing where a running term may not have so many cells, and then the table stays.
///
/// The next term is that of a step where the cells mean a term in which nothing but qubits is free,
/// the rule at the cell is the one found, and the answer fits the rule. A value is put under
/// binders as it stands, so a variable that is free in it may come to be bound there, where a step
/// raises it. An answer to a rule that asks for none is disregarded; to another rule its cell
/// stands for the redex, whichever it is.
pub fn next(
    cells: &[TermCell],
    rule: Rule,
    at: usize,
    answer: Answer,
    table: &mut [TermCell],
) -> Option<usize>
    ensures answer { result ≡ counted (next_cells cells.now rule at answer) }
    ensures table { table.new ≡ fronted (next_cells cells.now rule at answer) table.old }
    ensures step { MakesStep cells.now rule at answer }
{
    let len = put_next(cells, rule, at, answer, &mut [])?;
    if len <= table.len() {
        return put_next(cells, rule, at, answer, table);
    }
    Some(len)
}
