//! The claims that the typing rules ask for at a cell and its parts.

ghost use Rattle.std.specs.Prelude.{◌≡◌};
ghost use Rattle.std.specs.List.{slice_get};
ghost use Rattle.std.specs.Option.{option_map};
ghost use Rattle.calculus.specs.Letters.{letter};
ghost use Rattle.checker.specs.Judging.{term_of};
ghost use Rattle.checker.specs.Rules.{constant_of, own_fits, own_type};
ghost use Rattle.checker.specs.Scoping.{in_scope};
ghost use Rattle.subtyping.specs.Meaning.{meant};
ghost use Rattle.verdict.specs.Claims.{application_fits, claims_fit, condition_fits, function_fits};
ghost use Rattle.verdict.specs.Claims.{let_fits, pair_fits, unit_fits, variable_fits};

use crate::program::Node;
use crate::scope::Scope;
use calculus::{Gate, TypeCell};
use subtyping::{Core, TypeAt};

const BIT: TypeCell = TypeCell { kind: 'b' };

const QUBIT: TypeCell = TypeCell { kind: 'q' };

const MARK: TypeCell = TypeCell { kind: '!' };

const ARROW: TypeCell = TypeCell { kind: '>' };

const PAIR: TypeCell = TypeCell { kind: '*' };

// The own types of constants: of bits, of `n`, of `m`, and of gates on one, two and three qubits.
static BIT_TYPE: [TypeCell; 2] = [MARK, BIT];

static NEW_TYPE: [TypeCell; 4] = [MARK, ARROW, BIT, QUBIT];

static MEASURE_TYPE: [TypeCell; 5] = [MARK, ARROW, QUBIT, MARK, BIT];

static GATE_TYPE: [TypeCell; 4] = [MARK, ARROW, QUBIT, QUBIT];

#[rattlefmt::skip]
static PAIR_GATE_TYPE: [TypeCell; 8] = [
    MARK, ARROW, PAIR, QUBIT, QUBIT, PAIR, QUBIT, QUBIT,
];

#[rattlefmt::skip]
static TRIPLE_GATE_TYPE: [TypeCell; 12] = [
    MARK, ARROW, PAIR, QUBIT, PAIR, QUBIT, QUBIT, PAIR, QUBIT, PAIR, QUBIT, QUBIT,
];

// The own type of a constant, or nothing for what is no constant.
fn own_type(op: char, argument: u16) -> Option<TypeAt<'static>>
    ensures { option_map meant result ≡ own_type (constant_of (letter op) argument) }
{
    let types: &'static [TypeCell] = match op {
        '0' | '1' => &BIT_TYPE,
        'n' => &NEW_TYPE,
        'm' => &MEASURE_TYPE,
        'g' => match Gate::try_from(argument).ok()? {
            Gate::H | Gate::X | Gate::Z | Gate::S | Gate::T => &GATE_TYPE,
            Gate::Cnot | Gate::Swap => &PAIR_GATE_TYPE,
            Gate::Toffoli => &TRIPLE_GATE_TYPE,
        },
        _ => return None,
    };
    Some(TypeAt::new(types, 0))
}

// Whether the own type of a constant is a subtype of the claim.
fn constant_fits(claim: TypeAt<'_>, op: char, argument: u16) -> bool
    ensures { result ≡ own_fits (constant_of (letter op) argument) (meant claim.entry) }
{
    matches!(own_type(op, argument), Some(own) if own.is_subtype(claim))
}

// Whether the type of the variable's binder, counted outward, is a subtype of the claim.
fn variable_fits(claim: TypeAt<'_>, above: usize, scope: &Scope<'_>) -> bool
    ensures { result ≡ variable_fits (slice_get (in_scope scope.now) above) (meant claim.entry) }
{
    matches!(scope.binders.iter().rev().nth(above), Some(binder) if binder.is_subtype(claim))
}

// Whether the claim is the unit type after any marks.
fn unit_fits(claim: TypeAt<'_>) -> bool
    ensures { result ≡ unit_fits (meant claim.entry) }
{
    matches!(claim.take_apart().1, Core::Unit)
}

// Whether the claim is an arrow after any marks, and the body claims its result.
fn function_fits(claim: TypeAt<'_>, body: TypeAt<'_>) -> bool
    ensures { result ≡ function_fits (meant claim.entry) (meant body.entry) }
{
    matches!(claim.take_apart().1, Core::Arrow(_, to) if to.is_same(body))
}

// Whether the function claims exactly the arrow from the argument's claim to the claim.
fn application_fits(claim: TypeAt<'_>, function: TypeAt<'_>, argument: TypeAt<'_>) -> bool
    ensures { result
        ≡ application_fits (meant claim.entry) (meant function.entry) (meant argument.entry) }
{
    matches!(
        function.take_apart(),
        (0, Core::Arrow(from, to)) if argument.is_same(from) && to.is_same(claim)
    )
}

// Whether the claim is a pair after any marks, and the parts claim its parts after the same marks.
fn pair_fits(claim: TypeAt<'_>, left: TypeAt<'_>, right: TypeAt<'_>) -> bool
    ensures { result ≡ pair_fits (meant claim.entry) (meant left.entry) (meant right.entry) }
{
    matches!(
        claim.components(),
        Some((first, second)) if left.is_same(first) && right.is_same(second)
    )
}

// Whether the condition claims exactly a bit, and both branches what the cell claims.
fn condition_fits(
    claim: TypeAt<'_>,
    condition: TypeAt<'_>,
    one: TypeAt<'_>,
    zero: TypeAt<'_>,
) -> bool
    ensures { result ≡ condition_fits (meant claim.entry)
        (meant condition.entry) (meant one.entry) (meant zero.entry) }
{
    condition.kind() == 'b' && one.is_same(claim) && zero.is_same(claim)
}

// Whether the pair claims a pair after any marks, and the body what the cell claims.
fn let_fits(claim: TypeAt<'_>, given: TypeAt<'_>, body: TypeAt<'_>) -> bool
    ensures { result ≡ let_fits (meant claim.entry) (meant given.entry) (meant body.entry) }
{
    given.components().is_some() && body.is_same(claim)
}

/// Whether the cell of a term and its parts claim what the typing rule of its letter asks.
pub(crate) fn claims_agree(node: Node<'_>, scope: &Scope<'_>) -> bool
    ensures { result ≡ claims_fit (in_scope scope.now) (term_of node.entry) }
{
    let claim = node.claim();
    let cell = node.cell();
    match cell.op {
        'v' => variable_fits(claim, cell.argument as usize, scope),
        's' => unit_fits(claim),
        'l' => function_fits(claim, node.part(0).claim()),
        'a' => {
            let argument = node.part(1).claim();
            application_fits(claim, node.part(0).claim(), argument)
        }
        'p' => pair_fits(claim, node.part(0).claim(), node.part(1).claim()),
        'd' => let_fits(claim, node.part(0).claim(), node.part(1).claim()),
        'i' => {
            let condition = node.part(0).claim();
            condition_fits(claim, condition, node.part(1).claim(), node.part(2).claim())
        }
        _ => constant_fits(claim, cell.op, cell.argument),
    }
}
