//! Tests of allocators, moves and layout, by hand and by what another program gives.
#![tactic(auto)]

#[cfg(test)]
mod audits;
#[cfg(test)]
mod choices;
#[cfg(test)]
mod edges;
#[cfg(test)]
mod layouts;
#[cfg(test)]
mod moves;
#[cfg(test)]
mod plain_results;
#[cfg(test)]
mod reports;
