//! Threads that share a kernel, as tests.
//! May touch: memory, threads, clock.
#![tactic(auto)]

#[cfg(test)]
mod alone;
#[cfg(test)]
mod at_once;
#[cfg(test)]
mod blocks;
#[cfg(test)]
mod held;
#[cfg(test)]
mod lanes;
#[cfg(test)]
mod many;
#[cfg(test)]
mod scene;
#[cfg(test)]
mod sharing;
#[cfg(test)]
mod unsynced;
