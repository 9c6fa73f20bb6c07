//! The report of a run that is over.

ghost use Rattle.std.specs.Prelude.{◌≡◌, IfOk, length, string_bytes};
ghost use Rattle.vs_report.specs.Gives.{joined};
ghost use Rattle.vs_run_report.specs.Report.{run_status};
ghost use Rattle.vs_driver_parts.specs.Connections.{table_shown as guest_shown};
ghost use Rattle.vs_device_parts.specs.Turns.{table_shown as device_shown};
ghost use Rattle.vs_run_apps.specs.{Printed.Gives, Printed.texts_of, Runs.totals_of};

use crate::running::Ran;
use std::alloc::{AllocError, Global};
use vs_apps::guests::{Guests, RunName};
use vs_driver::Driver;
use vs_outside::Sink;
use vs_proxy::Proxy;
use vs_report::giving::{GiveError, Totals};
use vs_run_report::giving::give_by_lines;
use vs_run_report::report::{report_text, run_status};

// How many entries the driver's table has.
fn guest_entries(driver: &Driver) -> usize
    ensures { result ≡ length (guest_shown driver.now) }
{
    driver.table().count()
}

// How many entries the device's table has.
fn device_entries(proxy: &Proxy) -> usize
    ensures { result ≡ length (device_shown proxy.now.device) }
{
    proxy.table().count()
}

// What the report counts.
fn counted<N: RunName>(guests: &Guests<N>, proxy: &Proxy) -> Totals
    ensures { result ≡ totals_of guests.now proxy.now }
{
    let driver = guests.driver();
    Totals {
        guest_open: guest_entries(driver),
        device_open: device_entries(proxy),
        counters: proxy.counters(),
        broken: driver.broken(),
    }
}

// The lines of the report, one after another. The only error is want of memory.
fn report_of<N: RunName>(
    alloc: Global,
    guests: &Guests<N>,
    proxy: &Proxy,
    idle: u32,
) -> Result<String, AllocError>
    ensures { IfOk result (λ text. string_bytes text ≡ joined (texts_of idle N.script guests.now proxy.now)) }
{
    let totals = counted(guests, proxy);
    let journal = guests.journal();
    report_text(
        alloc,
        idle,
        guests.script(),
        guests.apps(),
        journal,
        &totals,
    )
}

// The status: 0, or 5 where an app isn't done.
fn status<N: RunName>(guests: &Guests<N>) -> u8
    ensures { result ≡ run_status N.script guests.now.apps guests.now.entries }
{
    run_status(guests.script(), guests.apps(), guests.journal().entries())
}

/// Gives the report of a run that is over to the sink, each line by itself, and answers the run's status: 0, or 5 where an app isn't done.
pub fn give_report<N: RunName, K: Sink>(
    alloc: Global,
    ran: &Ran<N>,
    idle: u32,
    out: &mut K,
) -> Result<u8, GiveError>
    ensures { Gives idle N.script ran.now.guests ran.now.proxy (K.contents out.old) (K.contents out.new) (K.faults out.old)
        (K.faults out.new) result }
{
    let Ok(text) = report_of(alloc, &ran.guests, &ran.proxy, idle) else {
        return Err(GiveError::OutOfMemory);
    };
    match give_by_lines(text.as_bytes(), out) {
        Ok(()) => Ok(status(&ran.guests)),
        Err(_) => Err(GiveError::Sink),
    }
}
