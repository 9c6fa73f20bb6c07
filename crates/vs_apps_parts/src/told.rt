//! What a reply tells an app.

ghost use Rattle.std.specs.Prelude.{◌≡◌, [], ◌∷◌, List, ℕ};
ghost use Rattle.vs_apps_parts.specs.{Journals.made_of, Scripts.RunScript, Told.{is_any_end, is_end, step_wait, told_of, wait_of, told_accept, told_connect, told_list, told_look}};
ghost use Rattle.vs_apps_parts.specs.Told.{told_recv, told_send, waits_on};

use crate::journal::{Called, WaitsFor};
use vs_driver_parts::answers::{Accepted, ConnId, ConnectError, ConnectionState, Received, Sent};

/// What a reply tells an app.
#[derive(Clone, Copy)]
pub enum Told {
    /// To wait.
    Waits(WaitsFor),
    /// That a connection was asked for.
    Asked(ConnId),
    /// That a connection was accepted.
    Given(ConnId),
    /// That so many bytes are on their way.
    Took(usize),
    /// That so many bytes came.
    Got(usize),
    /// To go on to the next instruction.
    Ends,
}

impl Told {
    /// What it says to wait for.
    pub fn wait(self) -> Option<WaitsFor>
        ensures { result ≡ wait_of self }
    {
        match self {
            Told::Waits(why) => Some(why),
            _ => None,
        }
    }

    /// Whether the instruction is done by it, whatever was moved.
    pub fn is_end(self) -> bool
        ensures { result ≡ is_end self }
    {
        matches!(self, Told::Ends | Told::Given(_))
    }
}

/// What the calls of a step told: at most two, a send and a receive.
#[derive(Clone, Copy)]
pub struct Heard {
    pub first: Option<Told>,
    pub second: Option<Told>,
}

impl Heard {
    /// What the one call of a step told.
    pub fn one(told: Told) -> Heard
        ensures { told_list result ≡ told ∷ [] }
    {
        Heard {
            first: Some(told),
            second: None,
        }
    }

    /// What the step waits for, if it does.
    pub fn wait(self) -> Option<WaitsFor>
        ensures { result ≡ step_wait (told_list self) }
    {
        match (self.first, self.second) {
            (None, None) => None,
            (Some(told), None) | (None, Some(told)) => told.wait(),
            (Some(first), Some(second)) => first.wait().and(second.wait()),
        }
    }

    /// Whether the instruction is done by it, whatever was moved.
    pub fn is_end(self) -> bool
        ensures { result ≡ is_any_end (told_list self) }
    {
        self.first.is_some_and(Told::is_end) || self.second.is_some_and(Told::is_end)
    }

    /// The place of the app's last entry where that is a wait, behind a step that didn't wait: it stays where no call was made.
    pub fn waiting(self, was: Option<usize>) -> Option<usize>
        ensures { result ≡ waits_on (told_list self) was }
    {
        if self.first.is_none() && self.second.is_none() {
            was
        } else {
            None
        }
    }
}

impl Called {
    /// What the app is told by it.
    pub fn told(self) -> Told
        ensures { (script : RunScript) (bytes : List ℕ) (app : ℕ) → result ≡ told_of (made_of script bytes app self) }
    {
        match self {
            Called::Connect {
                port: _,
                answer,
                flow: _,
            } => told_connect(answer),
            Called::Accept {
                port: _,
                answer,
                flow: _,
            } => told_accept(answer),
            Called::Send {
                id: _,
                at: _,
                from: _,
                len: _,
                answer,
            } => told_send(answer),
            Called::Recv {
                id: _,
                len: _,
                from: _,
                answer,
            } => told_recv(answer),
            Called::LookAt { id: _, answer } => told_look(answer),
            _ => Told::Ends,
        }
    }
}

// What each answer tells.
fn told_connect(answer: Result<ConnId, ConnectError>) -> Told
    ensures { result ≡ told_connect answer }
{
    match answer {
        Ok(id) => Told::Asked(id),
        Err(ConnectError::Full { slots: _ }) => Told::Waits(WaitsFor::Full),
        Err(ConnectError::NoDescriptor { in_flight }) => {
            Told::Waits(WaitsFor::NoDescriptor { in_flight })
        }
        Err(_) => Told::Ends,
    }
}

fn told_accept(answer: Accepted) -> Told
    ensures { result ≡ told_accept answer }
{
    match answer {
        Accepted::Conn(id) => Told::Given(id),
        Accepted::None => Told::Waits(WaitsFor::NoneWaiting),
        Accepted::NotListening => Told::Ends,
    }
}

fn told_send(answer: Sent) -> Told
    ensures { result ≡ told_send answer }
{
    match answer {
        Sent::Took(n) => Told::Took(n),
        Sent::NoCredit { tx, alloc, fwd } => Told::Waits(WaitsFor::NoCredit { tx, alloc, fwd }),
        Sent::NoDescriptor { in_flight } => Told::Waits(WaitsFor::NoDescriptor { in_flight }),
        Sent::NotOpen => Told::Waits(WaitsFor::NotOpen),
        _ => Told::Ends,
    }
}

fn told_recv(answer: Received) -> Told
    ensures { result ≡ told_recv answer }
{
    match answer {
        Received::Got(n) => Told::Got(n),
        Received::Empty => Told::Waits(WaitsFor::Empty),
        Received::NotOpen => Told::Waits(WaitsFor::NotOpen),
        _ => Told::Ends,
    }
}

fn told_look(answer: ConnectionState) -> Told
    ensures { result ≡ told_look answer }
{
    match answer {
        ConnectionState::Asked => Told::Waits(WaitsFor::NotOpen),
        _ => Told::Ends,
    }
}
