#![tactic(auto)]

// Tests of costs, tables, curves, layers and tariffs, in a crate of their own: the edges of every range, and the same questions to tariffs of
// every make.
#[cfg(test)]
mod answers;
#[cfg(test)]
mod costs_at_edges;
#[cfg(test)]
mod curves_at_edges;
#[cfg(test)]
mod filled_tables;
#[cfg(test)]
mod layers_at_edges;
#[cfg(test)]
mod steps_at_edges;
#[cfg(test)]
mod tariffs_of_every_make;
