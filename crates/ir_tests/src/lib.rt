//! Tests without a handle, through the public calls of the crates below: worked examples of graphs, tables, plans,
//! prefixes, changes of rows and of plans, and runs; errors as texts and numbers; traces that are read, written and
//! checked; words that are refused; what a world hands out; and runs of the program. No test here starts a thread or
//! waits for one.
#![tactic(auto)]

#[cfg(test)]
mod avoids;
#[cfg(test)]
mod between;
#[cfg(test)]
mod changed;
#[cfg(test)]
mod checks;
#[cfg(test)]
mod compiled;
#[cfg(test)]
mod errors;
#[cfg(test)]
mod examples;
#[cfg(test)]
mod graphs;
#[cfg(test)]
mod keeps;
#[cfg(test)]
mod lanes;
#[cfg(test)]
mod networks;
#[cfg(test)]
mod numbers;
#[cfg(test)]
mod openings;
#[cfg(test)]
mod plans;
#[cfg(test)]
mod prefixed;
#[cfg(test)]
mod programs;
#[cfg(test)]
mod runs;
#[cfg(test)]
mod streams;
#[cfg(test)]
mod tables;
#[cfg(test)]
mod texts;
#[cfg(test)]
mod told;
#[cfg(test)]
mod traces;
#[cfg(test)]
mod worlds;
