//! The letters of ops and kinds, and the numbers of gates.

use calculus::{Gate, TermCell, is_allowed, kind_parts, op_shape};

// An op, its parts, and how many arguments it allows.
#[derive(Drop)]
struct Op(char, usize, usize);

// The parts and the arguments of an op, as the table has them.
fn shape_in(ops: &[Op], letter: char) -> Option<(usize, usize)> {
    ops.iter().find(|op| op.0 == letter).map(|op| (op.1, op.2))
}

#[rattlefmt::skip]
const OPS: &[Op] = &[
    Op('v', 0, 65_536),
    Op('q', 0, 32),
    Op('g', 0, 8),
    Op('0', 0, 1),
    Op('1', 0, 1),
    Op('m', 0, 1),
    Op('n', 0, 1),
    Op('s', 0, 1),
    Op('l', 1, 1),
    Op('a', 2, 1),
    Op('p', 2, 1),
    Op('d', 2, 1),
    Op('i', 3, 1),
];

#[test]
fn ops(rt: HostRuntime) {
    for byte in 0..=255u8 {
        let letter = byte as char;
        let want = shape_in(OPS, letter);
        let got = op_shape(letter).map(|shape| (shape.parts, shape.arguments));
        assert_eq!(rt; got, want, "{}", letter);
        let allowed = want.map_or(0, |(_, arguments)| arguments);
        for argument in [0u16, 1, 7, 8, 31, 32, 65_535] {
            let cell = TermCell {
                op: letter,
                argument,
                claim: 3,
            };
            assert_eq!(rt;
                is_allowed(cell),
                (argument as usize) < allowed,
                "{}",
                letter
            );
        }
    }
    assert!(rt; op_shape('λ').is_none());
}

#[test]
fn kinds(rt: HostRuntime) {
    for byte in 0..=255u8 {
        let letter = byte as char;
        let want = match letter {
            'b' | 'q' | 'u' => Some(0),
            '!' => Some(1),
            '>' | '*' => Some(2),
            _ => None,
        };
        assert_eq!(rt; kind_parts(letter), want, "{}", letter);
    }
}

#[rattlefmt::skip]
const GATES: &[(Gate, usize)] = &[
    (Gate::H, 1),
    (Gate::X, 1),
    (Gate::Z, 1),
    (Gate::S, 1),
    (Gate::T, 1),
    (Gate::Cnot, 2),
    (Gate::Swap, 2),
    (Gate::Toffoli, 3),
];

#[test]
fn gates(rt: HostRuntime) {
    for number in 0..=65_535u16 {
        let want = GATES.get(number as usize).map(|row| row.0);
        assert_eq!(rt; Gate::try_from(number).ok(), want, "{}", number);
    }
    for (number, (gate, operands)) in GATES.iter().enumerate() {
        assert_eq!(rt; u16::from(*gate) as usize, number);
        assert_eq!(rt; gate.operands(), *operands, "{}", number);
    }
}
