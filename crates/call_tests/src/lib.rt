//! Tests of calls that no command makes: what other programs read and write of VOX, copies of drafts, each stage of a rack by itself,
//! disks that plan, and the devices in memory that other tests stand on. What commands show, `checks/` tries.
#![tactic(auto)]

#[cfg(test)]
mod adpcm;
#[cfg(test)]
mod memory;
#[cfg(test)]
mod meta;
#[cfg(test)]
mod plans;
#[cfg(test)]
mod rack;
