//! What a poll showed of a socket.

/// What a call on a socket does.
#[derive(Clone, Copy, Debug, PartialEq, Eq)]
pub enum Ask {
    /// It asks the socket, which may be ready.
    Socket,
    /// It polls first: the socket wasn't ready, and was told so of the last poll.
    Poll,
    /// Nothing: the last poll showed that the socket isn't ready.
    Nothing,
}

/// Whether a socket may be ready one way, as far as the polls showed. A socket that isn't ready is told so once of each poll, and its next
/// call polls anew, so that one poll serves all sockets of a turn.
#[derive(Clone, Copy, Debug, PartialEq, Eq)]
pub struct Readiness {
    ready: bool,
    // the number of the last poll whose answer was told
    told: u64,
}

impl Readiness {
    /// A new socket may be ready.
    pub fn new() -> Readiness {
        Readiness {
            ready: true,
            told: 0,
        }
    }

    /// What a call does, where the last poll had this number.
    pub fn ask(&mut self, polls: u64) -> Ask {
        if self.ready {
            Ask::Socket
        } else if self.told == polls {
            Ask::Poll
        } else {
            self.told = polls;
            Ask::Nothing
        }
    }

    /// What the poll that a call made, of that number, showed: whether the socket may be ready.
    pub fn polled(&mut self, polls: u64) -> bool {
        self.told = polls;
        self.ready
    }

    /// The socket wasn't ready, after the poll of that number.
    pub fn wait(&mut self, polls: u64) {
        self.ready = false;
        self.told = polls;
    }

    /// A poll showed that the socket may be ready.
    pub fn wake(&mut self) {
        self.ready = true;
    }
}
