//! The lines of a shot's listing.

ghost use Rattle.std.specs.Prelude.{◌≡◌, ◌≤◌, length};

use crate::halt::{Fault, Reason};
use crate::nodes::Constant;
use crate::tape::{Operands, Pulse};
use crate::terms::Term;
use kinds::{Kind, write_kind};
use std::alloc::{AllocError, Global};
use std::fmt;

/// How a run ends: at a value, with the budget spent, or by a refused step.
#[derive(Clone, Copy, Drop)]
pub enum Ending {
    Value,
    Budget,
    Refused(Reason),
}

impl fmt::Display for Ending {
    fn fmt<W: fmt::Write>(&self, f: &mut fmt::Formatter<W>) -> fmt::Result {
        f.write_str(match self {
            Ending::Value => "0",
            Ending::Budget => "1",
            Ending::Refused(_) => "2",
        })
    }
}

impl fmt::Display for Constant {
    fn fmt<W: fmt::Write>(&self, f: &mut fmt::Formatter<W>) -> fmt::Result {
        match self {
            Constant::Zero => f.write_str("0 0"),
            Constant::One => f.write_str("1 0"),
            Constant::Measure => f.write_str("m 0"),
            Constant::New => f.write_str("n 0"),
            Constant::Unit => f.write_str("s 0"),
            Constant::Gate(gate) => write!(f, "g {gate}"),
            Constant::Qubit(handle) => write!(f, "q {handle}"),
        }
    }
}

impl fmt::Display for Operands {
    fn fmt<W: fmt::Write>(&self, f: &mut fmt::Formatter<W>) -> fmt::Result {
        match self {
            Operands::One(a) => write!(f, "{a} - -"),
            Operands::Two(a, b) => write!(f, "{a} {b} -"),
            Operands::Three(a, b, c) => write!(f, "{a} {b} {c}"),
        }
    }
}

impl fmt::Display for Pulse {
    fn fmt<W: fmt::Write>(&self, f: &mut fmt::Formatter<W>) -> fmt::Result {
        match self {
            Pulse::Prepare(handle, bit) => write!(f, "P {handle} {} - -", u8::from(*bit)),
            Pulse::Gate(gate, on) => write!(f, "G {gate} {on}"),
            Pulse::Read(handle, outcome) => write!(f, "R {handle} {} - -", u8::from(*outcome)),
        }
    }
}

/// The lines so far.
#[derive(Drop)]
pub struct Listing {
    heap: Global,
    text: String,
}

// How many binders lie between a variable and its binder, the nearest of its name, or how many
// there are.
fn distance(scope: &[u32], x: Option<u32>) -> usize
    ensures { result ≤ length scope.now }
{
    scope
        .iter()
        .rev()
        .position(|y| Some(*y) == x)
        .unwrap_or(scope.len())
}

impl Listing {
    /// No line yet.
    pub fn new(heap: Global) -> Listing {
        Listing {
            heap,
            text: String::new(heap),
        }
    }

    /// The lines as one text.
    pub fn into_text(self) -> String
        ensures { result ≡ self.text }
    {
        self.text
    }

    /// The steps made, and how the run ended.
    pub fn head(&mut self, steps: usize, ending: Ending) -> Result<(), AllocError> {
        writeln!(self.text, "S {steps} {ending}")
    }

    /// The number of a refusal, and its place.
    pub fn refusal(&mut self, fault: Fault) -> Result<(), AllocError> {
        writeln!(self.text, "X {} {}", u16::from(fault.reason), fault.place)
    }

    /// The cells of a type.
    pub fn kind(&mut self, kind: &Kind) -> Result<(), AllocError> {
        let mut cells = Vec::new(self.heap);
        write_kind(kind, &mut cells)?;
        for cell in cells.iter() {
            writeln!(self.text, "T {}", cell.kind)?;
        }
        Ok(())
    }

    // The cell at the root of a term below the binders in scope.
    fn root(&mut self, term: &Term, scope: &[u32]) -> Result<(), AllocError> {
        match term {
            Term::Variable(x) => writeln!(self.text, "M v {}", distance(scope, *x)),
            Term::Constant(leaf) => writeln!(self.text, "M {leaf}"),
            Term::Lambda(_, _) => self.text.push_str("M l 0\n"),
            Term::Apply(_, _) => self.text.push_str("M a 0\n"),
            Term::Pair(_, _) => self.text.push_str("M p 0\n"),
            Term::Split(_, _, _, _) => self.text.push_str("M d 0\n"),
            Term::Choose(_, _, _) => self.text.push_str("M i 0\n"),
        }
    }

    /// The cells of a term below the binders in scope.
    pub fn value(&mut self, term: &Term, scope: &mut Vec<u32>) -> Result<(), AllocError> {
        self.root(term, scope)?;
        let level = scope.len();
        match term {
            Term::Variable(_) | Term::Constant(_) => {}
            Term::Lambda(x, body) => {
                scope.push(*x)?;
                self.value(body, scope)?;
            }
            Term::Apply(a, b) | Term::Pair(a, b) => {
                self.value(a, scope)?;
                self.value(b, scope)?;
            }
            Term::Split(x, y, pair, body) => {
                self.value(pair, scope)?;
                scope.extend_from_slice(&[*x, *y])?;
                self.value(body, scope)?;
            }
            Term::Choose(c, one, zero) => {
                self.value(c, scope)?;
                self.value(one, scope)?;
                self.value(zero, scope)?;
            }
        }
        scope.truncate(level);
        Ok(())
    }

    /// The pulses, in order.
    pub fn journal(&mut self, pulses: &[Pulse]) -> Result<(), AllocError> {
        for (at, pulse) in pulses.iter().enumerate() {
            writeln!(self.text, "J {at} {pulse}")?;
        }
        Ok(())
    }
}
