//! A command line that is taken.

/// A command line that is taken. Its words are as they were given, and none is looked into yet. Clauses speak of one
/// whose words are lists of octets.
#[derive(Clone, Copy)]
pub enum Command<T> {
    Check {
        topology: T,
        map: T,
    },
    Answer {
        topology: T,
        map: T,
        addr: T,
        hex: T,
    },
    Map {
        topology: T,
    },
    Repair {
        topology: T,
        map: T,
        changes: T,
    },
    Serve {
        topology: T,
        listen: T,
        workers: Option<T>,
        tcp: Option<T>,
        feed2: Option<T>,
        feed3: Option<T>,
        feed4: Option<T>,
    },
    Large {
        groups: T,
    },
    Places {
        topology: T,
    },
}
