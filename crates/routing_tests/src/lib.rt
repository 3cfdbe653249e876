#![tactic(auto)]

// Tests of forwarding sources, lane maps and paths, on small racks.
#[cfg(test)]
mod distances;
#[cfg(test)]
mod faults;
#[cfg(test)]
mod racks;
#[cfg(test)]
mod rows;
#[cfg(test)]
mod sources;
#[cfg(test)]
mod walks;
