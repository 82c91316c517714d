// A command.
ghost use Rattle.std.specs.Prelude.{◌≡◌, option_map};
ghost use Rattle.rx_words.specs.Words.{copy_of, limit_granted, path_of};

use rx_value::RxText;

/// What the words ask. A limit is the length that a journal may have.
#[derive(Debug, Drop)]
pub enum Command {
    /// To play the script of the input.
    Run {
        path: RxText,
        limit: u64,
    },
    /// To serve a collection as a master, to so many connections.
    Serve {
        path: RxText,
        collection: RxText,
        port: u16,
        connections: u32,
        limit: u64,
    },
    /// To tell the state of a journal.
    Check {
        path: RxText,
    },
    /// To play the script that is drawn from a seed, with so many lines of its own.
    Trial {
        path: RxText,
        seed: u64,
        count: u32,
        limit: u64,
    },
    /// To make a journal of the same world, which may have so many bytes.
    Compact {
        path: RxText,
        copy: RxText,
        limit: u64,
    },
}

impl Command {
    /// The path of the journal.
    pub fn path(&self) -> &RxText
        ensures { result.now ≡ path_of self.now }
    {
        match self {
            Command::Run { path, .. } => path,
            Command::Serve { path, .. } => path,
            Command::Check { path } => path,
            Command::Trial { path, .. } => path,
            Command::Compact { path, .. } => path,
        }
    }

    /// The limit, of a command that writes a journal.
    pub fn limit(&self) -> Option<u64>
        ensures { result ≡ limit_granted self.now }
    {
        match self {
            Command::Run { limit, .. } => Some(*limit),
            Command::Serve { limit, .. } => Some(*limit),
            Command::Check { .. } => None,
            Command::Trial { limit, .. } => Some(*limit),
            Command::Compact { limit, .. } => Some(*limit),
        }
    }

    /// The path of the journal that it makes, if it makes one.
    pub fn copy(&self) -> Option<&RxText>
        ensures { option_map (λ t. t.now) result ≡ copy_of self.now }
    {
        match self {
            Command::Compact { copy, .. } => Some(copy),
            Command::Run { .. }
            | Command::Serve { .. }
            | Command::Check { .. }
            | Command::Trial { .. } => None,
        }
    }
}
