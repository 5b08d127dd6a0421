//! Prefix trees over a slice of cells of any kind, and the first cell that fails a test. A tree is
//! a cell followed by the trees of its parts.
#![tactic(auto)]

ghost use Rattle.std.specs.Prelude.{◌≡◌, ℕ, Bool, length, drop};
ghost use Rattle.trees.specs.Failing.{first_failing};
ghost use Rattle.trees.specs.Reach.{ends, not_one_tree, copied_count, fronted, ReachLaws};
ghost use Rattle.trees.specs.Whole.{counted};

/// A cell of a prefix tree.
pub trait Cell: Copy {
    // How many trees follow the cell as its parts.
    ghost arity: { Self → ℕ };

    fn parts(&self) -> usize
        ensures { result ≡ arity self.now };
}

/// One past the tree that starts at `at`, or nothing where the cells end first.
pub fn reach<T: Cell>(cells: &[T], at: usize) -> Option<usize>
    ensures { result ≡ ends T.arity 1 (drop at cells.now) at }
{
    let mut due: usize = 1;
    let rest = cells.get(at..)?;
    for (i, cell) in rest.iter().enumerate() {
        due = (due - 1).checked_add(cell.parts())?;
        if due == 0 {
            return Some(at + i + 1);
        }
    }
    None
}

/// Where the cells are not exactly one tree: at 0 where it is unfinished, else one past its end.
pub fn not_one_tree<T: Cell>(cells: &[T]) -> Option<usize>
    ensures { result ≡ not_one_tree T.arity cells.now }
{
    let Some(end) = reach(cells, 0) else {
        return Some(0);
    };
    (end != cells.len()).then_some(end)
}

/// Copies the tree at `at` to the front of a table, whose rest stays. It answers how many cells
/// were copied. Nothing is copied if the cells end first or the table is too short.
pub fn copy<T: Cell>(cells: &[T], at: usize, to: &mut [T]) -> Option<usize>
    ensures answer { result
        ≡ copied_count (ends T.arity 1 (drop at cells.now) at) at (length to.old) }
    ensures table { to.new ≡ fronted result (drop at cells.now) to.old }
{
    let len = reach(cells, at)? - at;
    if len > to.len() {
        return None;
    }
    to[..len].copy_from_slice(&cells[at..at + len]);
    Some(len)
}

/// How many whole trees the cells are, one after the other, or nothing where one is unfinished.
pub fn count<T: Cell>(cells: &[T]) -> Option<usize>
    ensures { result ≡ counted T.arity cells.now }
{
    let mut trees: usize = 0;
    for cell in cells.iter().rev() {
        trees = trees.checked_sub(cell.parts())? + 1;
    }
    Some(trees)
}

/// The place of the first cell that fails a test.
pub fn first_failing<T: Copy, F: Fn(T) -> bool>(cells: &[T], passes: F) -> Option<usize>
    requires { F.IsAlwaysCallable passes }
    ensures { (holds : T → Bool) → ((x : T) (r : Bool) → F.post passes x r → r ≡ holds x)
        → result ≡ first_failing holds cells.now 0 }
{
    cells.iter().position(|cell| !passes(*cell))
}

/// How far trees reach follows the same laws for cells of every kind.
pub fn reach_is_lawful<T: Cell>()
    ensures { ReachLaws T.arity }
{}
