//! The line that the command writes last, and its status.
ghost use Rattle.std.specs.Prelude.{◌≡◌, ◌++◌, OnOk, codes, string_bytes};
ghost use Rattle.vs_peer.specs.{Ends.EndsAs, Ends.EndsUnread, Text.host_fault_text, Text.no_memory_text};
ghost use Rattle.vs_script.specs.Fault.{refused_text};
ghost use Rattle.vs_run.specs.Ends.{EndsRefused, EndsWith};

use std::alloc::{AllocError, Global};
use std::fmt::Write;
use vs_outside::Sink;
use vs_peer::{
    BAD_SOURCE, HOST_FAULT, NO_MEMORY, READ_FAULT, ReadError, SINK_FAULT, SinkFault, emit,
};
use vs_script::{ParseFault, Refused};

/// Writes the last line, and answers the status; that of the sink, where it fails.
pub fn ended<K: Sink>(out: &mut K, line: &[u8], status: u8) -> u8
    ensures { EndsAs (K.contents out.old) (K.contents out.new) (K.faults out.old) (K.faults out.new) line.now status result }
{
    match emit(out, line) {
        Ok(()) => status,
        Err(SinkFault) => SINK_FAULT,
    }
}

/// Says that memory ran out, and answers the status for it.
pub fn no_memory<K: Sink>(out: &mut K) -> u8
    ensures { EndsAs (K.contents out.old) (K.contents out.new) (K.faults out.old) (K.faults out.new) no_memory_text 9 result }
{
    ended(out, b"no memory\n", NO_MEMORY)
}

/// Says that the host isn't there, and answers the status for it.
pub fn host_fault<K: Sink>(out: &mut K) -> u8
    ensures { EndsAs (K.contents out.old) (K.contents out.new) (K.faults out.old) (K.faults out.new) host_fault_text 6 result }
{
    ended(out, b"host fault\n", HOST_FAULT)
}

/// Says why the script wasn't read.
pub fn unread<K: Sink>(out: &mut K, error: ReadError) -> u8
    ensures { EndsUnread (K.contents out.old) (K.contents out.new) (K.faults out.old) (K.faults out.new) error result }
{
    match error {
        ReadError::Fault => ended(out, b"read fault\n", READ_FAULT),
        ReadError::OutOfMemory => no_memory(out),
    }
}

/// Says for which line the script is refused, and why.
pub fn refused<K: Sink>(alloc: Global, fault: ParseFault, out: &mut K) -> u8
    ensures { EndsRefused (K.contents out.old) (K.contents out.new) (K.faults out.old) (K.faults out.new) fault result }
{
    match fault {
        ParseFault::Refused(refused) => refused_line(alloc, refused, out),
        ParseFault::OutOfMemory => no_memory(out),
    }
}

// Says for which line, and why.
fn refused_line<K: Sink>(alloc: Global, refused: Refused, out: &mut K) -> u8
    ensures { EndsWith (K.contents out.old) (K.contents out.new) (K.faults out.old) (K.faults out.new) (refused_text refused ++ codes "\n") 2 result }
{
    let mut text = String::new(alloc);
    match push_refused(&mut text, refused) {
        Ok(()) => ended(out, text.as_bytes(), BAD_SOURCE),
        Err(AllocError) => no_memory(out),
    }
}

// Appends `line L WHY`.
fn push_refused(text: &mut String, refused: Refused) -> Result<(), AllocError>
    ensures { OnOk result (string_bytes text.new ≡ string_bytes text.old ++ refused_text refused ++ codes "\n") }
{
    write!(text, "{refused}\n").map_err(|_| AllocError)
}
