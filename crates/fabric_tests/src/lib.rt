#![tactic(auto)]

// Tests of the fabric: courses of calls on a triangle, and what is answered to each.
#[cfg(test)]
mod bench;
#[cfg(test)]
mod course;
#[cfg(test)]
mod filled;
#[cfg(test)]
mod refusals;
#[cfg(test)]
mod rows;
#[cfg(test)]
mod worked;
