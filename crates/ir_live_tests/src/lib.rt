//! Worked runs by hand and between threads: of channels, of the registry of plans, of the board, of whole nets, and
//! live runs. Also of plans whose rows are made by a crew, over the numbers of a tour too, and of runs whose plans are.
#![tactic(auto)]

#[cfg(test)]
mod by_hand;
#[cfg(test)]
mod crews;
#[cfg(test)]
mod epochs;
#[cfg(test)]
mod errors;
#[cfg(test)]
mod fates;
#[cfg(test)]
mod gates;
#[cfg(test)]
mod links;
#[cfg(test)]
mod live;
#[cfg(test)]
mod plans;
#[cfg(test)]
mod turns;
