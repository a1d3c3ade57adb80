//! Tests of what stands below the node, through its calls: the tables of values, pools, lists, groups, queues, jobs, tasks, the index of
//! ready tasks, mutexes, semaphores and locks, segments; and of the functions of actions. No product stands on this crate.
#![tactic(auto)]

#[cfg(test)]
mod counting;
#[cfg(test)]
mod functions;
#[cfg(test)]
mod groups;
#[cfg(test)]
mod jobs;
#[cfg(test)]
mod lists;
#[cfg(test)]
mod mutexes;
#[cfg(test)]
mod pools;
#[cfg(test)]
mod queues;
#[cfg(test)]
mod ready;
#[cfg(test)]
mod segments;
#[cfg(test)]
mod tasks;
#[cfg(test)]
mod values;
