//! Tests of what no line of the program shows. They stand in a crate of their own, since a crate with tests is proved twice.
//! May touch: memory, threads, streams.
#![tactic(auto)]

#[cfg(test)]
mod counting;
#[cfg(test)]
mod disks;
#[cfg(test)]
mod free_blocks;
#[cfg(test)]
mod kernel;
#[cfg(test)]
mod lanes;
#[cfg(test)]
mod mounts;
#[cfg(test)]
mod playing;
#[cfg(test)]
mod replaced_files;
#[cfg(test)]
mod roles;
#[cfg(test)]
mod streams;
#[cfg(test)]
mod tickets;
#[cfg(test)]
mod words;
#[cfg(test)]
mod worlds;
