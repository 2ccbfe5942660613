//! The structures of the kernel, each against worked rows and against a plain list that the test keeps.
#![tactic(auto)]

#[cfg(test)]
mod counts;
#[cfg(test)]
mod devices;
#[cfg(test)]
mod objects;
#[cfg(test)]
mod pools;
#[cfg(test)]
mod power;
#[cfg(test)]
mod queues;
#[cfg(test)]
mod ready;
#[cfg(test)]
mod ready_lists;
#[cfg(test)]
mod wait_lists;
#[cfg(test)]
mod works;
