#![tactic(auto)]

// Tests of building and checking plans: racks, their tables, and what is answered place by place.
#[cfg(test)]
mod bare;
#[cfg(test)]
mod clockwise;
#[cfg(test)]
mod lanes;
#[cfg(test)]
mod levels;
#[cfg(test)]
mod line;
#[cfg(test)]
mod over_root;
#[cfg(test)]
mod plans;
#[cfg(test)]
mod racks;
#[cfg(test)]
mod refusals;
#[cfg(test)]
mod small;
#[cfg(test)]
mod tables;
