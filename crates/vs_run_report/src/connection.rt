//! The connections of a run's apps.

ghost use Rattle.std.specs.Prelude.{◌≡◌, ◌++◌, OnOk, codes, map, string_bytes};
ghost use Rattle.vs_apps_parts.specs.{Journals.calls_of, Scripts.script_of};
ghost use Rattle.vs_report.specs.{Bytes.excerpt_text, Gives.joined};
ghost use Rattle.vs_run_report.specs.Connections.{connection_line, listed, opened_as, opened_by, opened_by_accept, opened_by_connect, opened_in, opened_of, opened_text};

use crate::sums::sent_on;
use std::alloc::AllocError;
use vs_apps_parts::journal::{Called, Deed, Entry, Journal};
use vs_driver_parts::answers::{Accepted, ConnId, ConnectError};
use vs_excerpt::Excerpt;
use vs_flow::Flow;
use vs_report::bytes::push_excerpt;
use vs_report::number::push_number;
use vs_script::App;

/// A connection that an app opened: by a connect, or by an accept.
#[derive(Clone, Copy)]
pub struct Opened {
    pub id: ConnId,
    pub flow: Flow,
}

/// The connection that an entry of the app at a place opened.
pub fn opened_by(app: usize, entry: Entry) -> Option<Opened>
    ensures { result ≡ opened_by app entry }
{
    if entry.app != app {
        return None;
    }
    match entry.deed {
        Deed::Called(called) => opened_in(called),
        Deed::Waited { times: _, why: _ } => None,
    }
}

// The connection that a call opened.
fn opened_in(called: Called) -> Option<Opened>
    ensures { result ≡ opened_in called }
{
    match called {
        Called::Connect {
            port: _,
            answer,
            flow,
        } => opened_by_connect(answer, flow),
        Called::Accept {
            port: _,
            answer,
            flow,
        } => opened_by_accept(answer, flow),
        _ => None,
    }
}

fn opened_by_connect(answer: Result<ConnId, ConnectError>, flow: Option<Flow>) -> Option<Opened>
    ensures { result ≡ opened_by_connect answer flow }
{
    match answer {
        Ok(id) => opened_as(id, flow),
        Err(_) => None,
    }
}

fn opened_by_accept(answer: Accepted, flow: Option<Flow>) -> Option<Opened>
    ensures { result ≡ opened_by_accept answer flow }
{
    match answer {
        Accepted::Conn(id) => opened_as(id, flow),
        Accepted::None | Accepted::NotListening => None,
    }
}

fn opened_as(id: ConnId, flow: Option<Flow>) -> Option<Opened>
    ensures { result ≡ opened_as id flow }
{
    let flow = flow?;
    Some(Opened { id, flow })
}

/// A connection's line: its ports, how many bytes were sent on it, and those that were received, by an excerpt of them.
pub fn push_connection(
    out: &mut String,
    flow: Flow,
    sent: u64,
    received: &Excerpt,
) -> Result<(), AllocError>
    ensures { OnOk result (string_bytes out.new ≡ string_bytes out.old ++ connection_line flow sent (excerpt_text received.now)) }
{
    push_number(out, "conn ", flow.guest as u64)?;
    push_number(out, " ", flow.host as u64)?;
    push_number(out, " sent ", sent)?;
    push_received(out, received)
}

// What was received.
fn push_received(out: &mut String, received: &Excerpt) -> Result<(), AllocError>
    ensures { OnOk result (string_bytes out.new ≡ string_bytes out.old ++ (codes " received " ++ excerpt_text received.now ++ codes "\n")) }
{
    out.push_str(" received ")?;
    push_excerpt(out, received)?;
    out.push_str("\n")
}

// The line of a connection, by the journal.
fn push_opened(
    out: &mut String,
    opened: Opened,
    script: &[App],
    journal: &Journal,
) -> Result<(), AllocError>
    ensures { OnOk result (string_bytes out.new ≡ string_bytes out.old
        ++ opened_text (calls_of (script_of script.now) journal.now.bytes journal.now.entries) opened) }
{
    let sent = sent_on(opened.id, script, journal.entries());
    let received = journal.excerpt(opened.id);
    push_connection(out, opened.flow, sent, &received)
}

// The line of the connection that an entry of the app at a place opened, if it did.
fn push_opened_by(
    out: &mut String,
    opened: Option<Opened>,
    script: &[App],
    journal: &Journal,
) -> Result<(), AllocError>
    ensures { OnOk result (string_bytes out.new ≡ string_bytes out.old
        ++ joined (map (opened_text (calls_of (script_of script.now) journal.now.bytes journal.now.entries)) (listed opened))) }
{
    match opened {
        Some(opened) => push_opened(out, opened, script, journal),
        None => Ok(()),
    }
}

// The lines of the connections that these entries of the app at a place opened.
fn push_all_opened(
    out: &mut String,
    app: usize,
    script: &[App],
    entries: &[Entry],
    journal: &Journal,
) -> Result<(), AllocError>
    ensures { OnOk result (string_bytes out.new ≡ string_bytes out.old
        ++ joined (map (opened_text (calls_of (script_of script.now) journal.now.bytes journal.now.entries)) (opened_of app entries.now))) }
{
    for entry in entries {
        push_opened_by(out, opened_by(app, *entry), script, journal)?;
    }
    Ok(())
}

/// The lines of the connections of the app at a place, in the order in which it opened them.
pub fn push_connections_of(
    out: &mut String,
    app: usize,
    script: &[App],
    journal: &Journal,
) -> Result<(), AllocError>
    ensures { OnOk result (string_bytes out.new ≡ string_bytes out.old
        ++ joined (map (opened_text (calls_of (script_of script.now) journal.now.bytes journal.now.entries)) (opened_of app journal.now.entries))) }
{
    push_all_opened(out, app, script, journal.entries(), journal)
}
