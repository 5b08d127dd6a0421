//! How often two interpreters agreed, by outcome.
#![tactic(auto)]

ghost use Rattle.std.specs.Prelude.{◌≡◌, ◌&&◌, not, true, IfOk, OnOk};
ghost use Rattle.std.specs.BTreeMap.{IsEmpty, IsUnchanged};
ghost use Rattle.tally.specs.Outcomes.{counted, is_shot, outcome_of, CountsOne, CountsOneIf};

use controller::Stop;
use listing::Shot;
use std::alloc::{AllocError, Global};
use std::collections::BTreeMap;
use std::{fmt, io};

/// What both interpreters came to: of a shot, of a check, or of a find; a refusal has its number.
#[derive(Clone, Copy, PartialEq, Eq, PartialOrd, Ord, Drop)]
pub enum Outcome {
    ShotValue,
    ShotBudget,
    ShotRefused(u16),
    CheckAccepted,
    CheckRefused(u16),
    FindValue,
    FindRule,
    FindRefused(u16),
}

/// The number that a shot was refused by, or else how its run ended.
impl<'s> From<&'s Shot> for Outcome {
    ghost from_gives = { λ shot outcome. outcome ≡ outcome_of shot.now };

    fn from(shot: &'s Shot) -> Outcome {
        match shot {
            Shot::Refused { number, .. } => Outcome::ShotRefused(*number),
            Shot::Ran { stop, .. } => match stop {
                Stop::Value => Outcome::ShotValue,
                Stop::Budget => Outcome::ShotBudget,
                Stop::Refused { fault, .. } => Outcome::ShotRefused(fault.number()),
            },
        }
    }
}

impl fmt::Display for Outcome {
    fn fmt<W: fmt::Write>(&self, f: &mut fmt::Formatter<W>) -> fmt::Result {
        match self {
            Outcome::ShotValue => write!(f, "value"),
            Outcome::ShotBudget => write!(f, "budget"),
            Outcome::ShotRefused(number) => write!(f, "refused {number}"),
            Outcome::CheckAccepted => write!(f, "check accepted"),
            Outcome::CheckRefused(number) => write!(f, "check refused {number}"),
            Outcome::FindValue => write!(f, "find value"),
            Outcome::FindRule => write!(f, "find rule"),
            Outcome::FindRefused(number) => write!(f, "find refused {number}"),
        }
    }
}

/// Agreements by outcome, how many of them were of shots, and how often the interpreters differed;
/// and where the comparisons print.
#[derive(Drop)]
pub struct Tally<'r> {
    pub rt: &'r HostRuntime,
    heap: Global,
    agreements: BTreeMap<Outcome, usize>,
    shots: usize,
    differences: usize,
}

impl<'r> Tally<'r> {
    /// Nothing compared yet.
    pub fn new(rt: &'r HostRuntime) -> Tally<'r>
        ensures agreements { IsEmpty result.agreements }
        ensures shots { result.shots ≡ 0 }
        ensures differences { result.differences ≡ 0 }
    {
        let heap = rt.alloc();
        Tally {
            rt,
            heap,
            agreements: BTreeMap::new(heap),
            shots: 0,
            differences: 0,
        }
    }

    /// The allocator.
    pub fn heap(&self) -> Global
        ensures { result ≡ self.now.heap }
    {
        self.heap
    }

    // One more comparison that agreed, with its outcome.
    fn agree(&mut self, outcome: Outcome) -> Result<(), AllocError>
        ensures agreements { OnOk result
            (CountsOne ⟦<Outcome as Ord>⟧.cmp self.old.agreements self.new.agreements outcome) }
        ensures shots { self.new.shots ≡ counted (is_shot outcome) self.old.shots }
        ensures differences { self.new.differences ≡ self.old.differences }
    {
        if matches!(
            outcome,
            Outcome::ShotValue | Outcome::ShotBudget | Outcome::ShotRefused(_)
        ) {
            self.shots = self.shots.saturating_add(1);
        }
        let count = self.agreements.entry(outcome)?.or_insert(0);
        *count = count.saturating_add(1);
        Ok(())
    }

    /// One more difference.
    pub fn differ(&mut self)
        ensures agreements { IsUnchanged self.old.agreements self.new.agreements }
        ensures shots { self.new.shots ≡ self.old.shots }
        ensures differences { self.new.differences ≡ counted true self.old.differences }
    {
        self.differences = self.differences.saturating_add(1);
    }

    /// One more comparison: an agreement with its outcome, or else a difference. Answers which it
    /// was.
    pub fn compare(&mut self, is_same: bool, outcome: Outcome) -> Result<bool, AllocError>
        ensures answer { IfOk result (λ agreed. agreed ≡ is_same) }
        ensures agreements { OnOk result (CountsOneIf is_same ⟦<Outcome as Ord>⟧.cmp
            self.old.agreements self.new.agreements outcome) }
        ensures shots { self.new.shots ≡ counted (is_same && is_shot outcome) self.old.shots }
        ensures differences { self.new.differences ≡ counted (not is_same) self.old.differences }
    {
        if is_same {
            self.agree(outcome)?;
        } else {
            self.differ();
        }
        Ok(is_same)
    }

    /// A line for each outcome, then how many differences there are, and how many programs agreed.
    pub fn print(&self) -> io::Result<()> {
        for (outcome, count) in self.agreements.iter() {
            println!(self.rt; "{outcome} {count}")?;
        }
        println!(self.rt; "differences {}", self.differences)?;
        println!(self.rt; "programs {}", self.shots)
    }
}
