//! The command line.

use crate::spread::Differing;

/// What is done in each turn, and of what size.
#[derive(Clone, Copy)]
pub enum Task {
    /// A text is hashed.
    Hash { octets: u16 },
    /// A payload is sealed.
    Seal { octets: u16 },
    /// The packet of a payload is opened by a fresh receiver.
    Open { octets: u16 },
    /// A pair is found by its SPI, and seals.
    Table { pairs: u16 },
    /// A pair is found by a flow.
    Outbound { pairs: u16 },
    /// A policy decides on a flow.
    Decide { entries: u16 },
    /// A packet is sent whose flow is remembered.
    Remembered { pairs: u16, entries: u16 },
    /// A packet of each of many flows is sent.
    Spread { differing: Differing, flows: u16 },
    /// A public value of the key agreement is made.
    Public,
    /// A payload is sealed as the body of an IKE message.
    Cipher { octets: u16 },
}

/// A task, and in how many turns it is done.
#[derive(Clone, Copy)]
pub struct Job {
    pub task: Task,
    pub count: u32,
}

/// The job that the words ask for. The first word is the program's own name.
pub fn read(words: &[String]) -> Option<Job> {
    let (task, count) = match words {
        [_, name, count] => (task_without_size(name)?, count),
        [_, name, count, size] => (task_of_size(name, size.parse().ok()?)?, count),
        [_, name, count, pairs, entries] => {
            let pairs = pairs.parse().ok()?;
            let entries = entries.parse().ok()?;
            (task_of_sizes(name, pairs, entries)?, count)
        }
        _ => return None,
    };
    let count = count.parse().ok()?;
    Some(Job { task, count })
}

fn task_without_size(name: &str) -> Option<Task> {
    match name {
        "public" => Some(Task::Public),
        _ => None,
    }
}

fn task_of_size(name: &str, size: u16) -> Option<Task> {
    match name {
        "hash" => Some(Task::Hash { octets: size }),
        "seal" => Some(Task::Seal { octets: size }),
        "open" => Some(Task::Open { octets: size }),
        "table" => Some(Task::Table { pairs: size }),
        "outbound" => Some(Task::Outbound { pairs: size }),
        "decide" => Some(Task::Decide { entries: size }),
        "cipher" => Some(Task::Cipher { octets: size }),
        _ => task_of_flows(name, size),
    }
}

fn task_of_flows(name: &str, flows: u16) -> Option<Task> {
    let differing = match name {
        "source-ports" => Differing::SourcePorts,
        "target-ports" => Differing::TargetPorts,
        "hosts" => Differing::Hosts,
        "hosts6" => Differing::Hosts6,
        _ => return None,
    };
    Some(Task::Spread { differing, flows })
}

fn task_of_sizes(name: &str, pairs: u16, entries: u16) -> Option<Task> {
    match name {
        "remembered" => Some(Task::Remembered { pairs, entries }),
        _ => None,
    }
}
