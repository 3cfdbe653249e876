#![tactic(auto)]

// Tests of reading a rack file, tables of files and answers, and of what a rack tells.
#[cfg(test)]
mod files;
#[cfg(test)]
mod limits;
#[cfg(test)]
mod racks;
#[cfg(test)]
mod refusals;
#[cfg(test)]
mod tables;
