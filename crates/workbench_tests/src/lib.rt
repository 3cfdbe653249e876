#![tactic(auto)]

// Tests of the workbench: plan files, the words of calls and commands, and what is said of plans.
#[cfg(test)]
mod bench;
#[cfg(test)]
mod commands;
#[cfg(test)]
mod falls;
#[cfg(test)]
mod plan_files;
#[cfg(test)]
mod requests;
#[cfg(test)]
mod texts;
