//! The terms that make a value of a type from its parts, or a qubit by a constant.

use crate::any::{FUNCTIONS, Function, GATE_COUNT};
use crate::makers::{Maker, Task, arrow};
use crate::sides::{Side, beside};
use kinds::{Head, Kind, is_below};
use std::alloc::AllocError;

impl<'r> Maker<'r> {
    // A constant that is a function of a type, one at random, if there is one.
    fn constant(&mut self, kind: &Kind) -> Result<Option<Function>, AllocError> {
        let heap = self.heap;
        self.random.find(
            &FUNCTIONS,
            |function| Ok(is_below(&function.own(heap)?, kind)),
        )
    }

    // A gate on qubits of a type, one at random, if it is the type of a gate's operands.
    fn gate(&mut self, kind: &Kind) -> Result<Option<Function>, AllocError> {
        let heap = self.heap;
        self.random
            .find(&FUNCTIONS[..GATE_COUNT], |gate| gate.takes(heap, kind))
    }

    // A function of an argument and a body of types. Where it is marked, the variables that may be
    // used once only are out of reach until its end.
    fn lambda(&mut self, kind: &Kind, argument: &Kind, body: &Kind) -> Result<(), AllocError> {
        self.emit('l', 0, kind)?;
        if kind.marks > 0 {
            self.tasks.push(Task::Reopen(self.spent.clone()?))?;
            for (level, own) in self.scope.iter().enumerate() {
                if own.marks == 0 {
                    self.spent.insert(level)?;
                }
            }
        }
        self.tasks.push(Task::Leave(self.scope.len()))?;
        self.due(body)?;
        self.enter(argument, 0)
    }

    // A function that is a constant, claimed without marks, applied to an argument of a type.
    fn applied(
        &mut self,
        function: Function,
        argument: &Kind,
        kind: &Kind,
    ) -> Result<(), AllocError> {
        self.emit('a', 0, kind)?;
        let claim = arrow(self.heap, argument, kind)?;
        let (op, number) = function.cell();
        self.emit(op, number, &claim)?;
        self.due(argument)
    }

    // A pair of two components of types, under the marks of the pair.
    fn pair_value(&mut self, kind: &Kind, left: &Kind, right: &Kind) -> Result<(), AllocError> {
        self.emit('p', 0, kind)?;
        self.due_marked(right, kind.marks)?;
        self.due_marked(left, kind.marks)
    }

    // Emits the root of a term by what its type is, and leaves its parts to be made.
    pub(crate) fn introduce(&mut self, kind: &Kind) -> Result<(), AllocError> {
        if self.fuel > 0 && self.random.chance(60) {
            if let Some(gate) = self.gate(kind)? {
                return self.applied(gate, kind, kind);
            }
        }
        match &kind.head {
            Head::Bit if self.fuel > 0 && self.random.chance(40) => {
                self.applied(Function::Measure, &Head::Qubit.marked(0), kind)
            }
            Head::Bit => {
                let op = if self.random.chance(50) { '0' } else { '1' };
                self.emit(op, 0, kind)
            }
            Head::Unit => self.emit('s', 0, kind),
            Head::Qubit => {
                let bit = beside(self.heap, self.random, Side::Below, &Head::Bit.marked(0))?;
                self.applied(Function::New, &bit, kind)
            }
            Head::Arrow(a, b) => {
                if self.random.chance(40) {
                    if let Some(function) = self.constant(kind)? {
                        let (op, argument) = function.cell();
                        return self.emit(op, argument, kind);
                    }
                }
                self.lambda(kind, a, b)
            }
            Head::Pair(a, b) => self.pair_value(kind, a, b),
        }
    }
}
