//! Tables of cases for the unit's public calls: exact answers, places, and what each call leaves.
#![tactic(auto)]

#[cfg(test)]
mod asking;
#[cfg(test)]
mod bench;
#[cfg(test)]
mod burying;
#[cfg(test)]
mod checking;
#[cfg(test)]
mod finding;
#[cfg(test)]
mod growing;
#[cfg(test)]
mod layering;
#[cfg(test)]
mod letters;
#[cfg(test)]
mod making;
#[cfg(test)]
mod playing;
#[cfg(test)]
mod prefix;
#[cfg(test)]
mod reading;
#[cfg(test)]
mod registering;
#[cfg(test)]
mod running;
#[cfg(test)]
mod shots;
