//! The command's top: its words, the script that it reads, and the status that it ends with.

ghost use Rattle.std.specs.Prelude.{◌≡◌, ◌≢◌, ◌<◌, ◌-◌, ◌^◌, ℕ, List, [], Some, None, Ok, Err, true, false, map, string_bytes};
ghost use Rattle.vs_outside.specs.Faults.{CountsFault};
ghost use Rattle.vs_peer.specs.{Pieces.Emits, Statuses.{NoFault, Says, is_faultless}, Text.read_fault_text};
ghost use Rattle.vs_play.specs.Answer.{play_of};
ghost use Rattle.laws_world.specs.World.{Beginning};
ghost use Rattle.laws_play.specs.Headline.{IsLawful};
ghost use Rattle.vs_hostile.specs.Answer.{hostile_of};
ghost use Rattle.laws_hostile.specs.Isolated.{IsSafe};
ghost use Rattle.vs_report.specs.Gives.{joined};
ghost use Rattle.vs_script.specs.{Play.Event, Hostile.Hostile as Attack, Script.{Attacks, Plays, Runs, parse_of}, declared.fault.Refused.Refused};
ghost use Rattle.vs_words.specs.{Command.{Play, Run, Hostile, Load, Peer, command_of}, declared.command.Rings.Rings};
ghost use Rattle.vs_apps_parts.specs.Scripts.{RunScript};
ghost use Rattle.vs_run.specs.{Ends.{EndsAnswer, EndsWith, refusal_text, usage_text}, Does.{Does, IsNoScript, is_client, is_status, lent, runs_apps, uses_host}, Runs.EndsLoad};
ghost use Rattle.vs_run.specs.Runs.{EndsOver};
ghost use Rattle.vs_script.specs.declared.script.Command.TheVariants as script_of;

use crate::ending::{ended, no_memory};
use crate::hostile::hostile_script;
use crate::load::load_apps;
use crate::play::play_script;
use crate::run::run_script;
use std::alloc::AllocGlobal;
use std::sync::Wait;
use std::thread::Threads;
use vs_outside::{Clock, Gate, HostNet, Sink, Source};
use vs_peer::peer;
use vs_words::{Command, WordsError, command_of};

/// The status of words that name no command.
pub const USAGE: u8 = 1;

/// Does what the program's words say, its name first, and answers the status that the program ends with:
///
/// - 0: all was done.
/// - 1: the words are no command, and `usage` was written.
/// - 2: the script is refused as a whole, and `line L WHY` was written; of `peer`, the source gave too many bytes.
/// - 3: a call of `script` failed, and `read fault` was written.
/// - 4: a call of `out` failed, and nothing more was written.
/// - 5: `peer` waited, with a pause of `gate` for each step, and `waited N` was written behind what came before; of `run`, an app isn't done
///   at rest, and the report was written.
/// - 6: a call of `host` failed in `peer`, or `run` couldn't start it, and `host fault` was written behind what came before.
/// - 7: the device of `hostile` failed.
/// - 8: `peer` wasn't answered by an OK line, and `peer refused` was written.
/// - 9: memory ran out, and `no memory` was written behind what was written before.
///
/// `play`, `hostile` and `load` bring a host of their own; `play`, `hostile` and `peer` look at no clock. `peer` goes on while its stream moves,
/// and `run` and `load` wait for their apps and go on until both ends are at rest, so these may never return.
///
/// Each app of `run` and `load` runs on a thread of its own, with one of `gates`. The last of these is that of the thread that turns the device;
/// an app that has none is stepped by that thread. `gate` is that of `peer`.
pub fn vsock_main<
    R: AllocGlobal + Wait + Threads + Sync,
    S: Source,
    K: Sink,
    H: HostNet,
    C: Clock,
    G: Gate + Send + Drop,
>(
    rt: &R,
    words: &[String],
    script: &mut S,
    host: &mut H,
    clock: &mut C,
    gate: &mut G,
    gates: Vec<G>,
    out: &mut K,
) -> u8
    // Words that are no command: nothing is read.
    ensures usage { command_of (map string_bytes words.now) ≡ None
        → EndsWith (K.contents out.old) (K.contents out.new) (K.faults out.old) (K.faults out.new) usage_text 1 result
        × (S.contents script.new ≡ S.contents script.old) × (S.faults script.new ≡ S.faults script.old) }
    // Only commands that run apps look at the clock, and only `run` and `peer` use the host.
    ensures clock { runs_apps (command_of (map string_bytes words.now)) ≡ false → clock.new ≡ clock.old }
    ensures host { uses_host (command_of (map string_bytes words.now)) ≡ false
        → (H.contents host.new ≡ H.contents host.old) × (H.faults host.new ≡ H.faults host.old) }
    // A call of the source failed: nothing ran.
    ensures fault { is_client (command_of (map string_bytes words.now)) ≡ false → S.faults script.new ≢ S.faults script.old
        → EndsWith (K.contents out.old) (K.contents out.new) (K.faults out.old) (K.faults out.new) read_fault_text 3 result
        × (H.contents host.new ≡ H.contents host.old) × (H.faults host.new ≡ H.faults host.old) }
    // The source exposed a text that is no script, and no call of it failed, which its count shows as long as it can rise.
    ensures refused { (kind : Rings) (queue first : ℕ) (text : List ℕ) (r : Refused) → command_of (map string_bytes words.now) ≡ Some (Play kind queue first)
        → S.faults script.old < 2 ^ 64 - 1 → S.faults script.new ≡ S.faults script.old
        → S.contents script.old ≡ Some text → parse_of script_of.Play text ≡ Err r
        → EndsWith (K.contents out.old) (K.contents out.new) (K.faults out.old) (K.faults out.new) (refusal_text r) 2 result }
    ensures refused_attack { (text : List ℕ) (r : Refused) → command_of (map string_bytes words.now) ≡ Some Hostile
        → S.faults script.old < 2 ^ 64 - 1 → S.faults script.new ≡ S.faults script.old
        → S.contents script.old ≡ Some text → parse_of script_of.Hostile text ≡ Err r
        → EndsWith (K.contents out.old) (K.contents out.new) (K.faults out.old) (K.faults out.new) (refusal_text r) 2 result }
    ensures refused_run { (base : List ℕ) (queue idle first : ℕ) (text : List ℕ) (r : Refused)
        → command_of (map string_bytes words.now) ≡ Some (Run base queue idle first)
        → S.faults script.old < 2 ^ 64 - 1 → S.faults script.new ≡ S.faults script.old
        → S.contents script.old ≡ Some text → parse_of script_of.Run text ≡ Err r
        → EndsWith (K.contents out.old) (K.contents out.new) (K.faults out.old) (K.faults out.new) (refusal_text r) 2 result
        × (H.contents host.new ≡ H.contents host.old) × (H.faults host.new ≡ H.faults host.old) }
    // The same of any text: the answer of its play is written, whatever the pieces in which it is read and written.
    ensures plays { (kind : Rings) (queue first : ℕ) (text : List ℕ) → command_of (map string_bytes words.now) ≡ Some (Play kind queue first)
        → S.faults script.old < 2 ^ 64 - 1 → S.faults script.new ≡ S.faults script.old → S.contents script.old ≡ Some text
        → EndsAnswer (K.contents out.old) (K.contents out.new) (K.faults out.old) (K.faults out.new)
        (play_of queue first text).lines (play_of queue first text).status result }
    // That of a hostile guest's run.
    ensures attacks { (text : List ℕ) → command_of (map string_bytes words.now) ≡ Some Hostile
        → S.faults script.old < 2 ^ 64 - 1 → S.faults script.new ≡ S.faults script.old → S.contents script.old ≡ Some text
        → EndsAnswer (K.contents out.old) (K.contents out.new) (K.faults out.old) (K.faults out.new)
        (hostile_of text).lines (hostile_of text).status result }
    // The apps of a script run until both ends are at rest, and the right report of that run is written; or the host didn't start, or memory ran out.
    ensures runs { (base : List ℕ) (queue idle first : ℕ) (text : List ℕ) (apps : RunScript)
        → command_of (map string_bytes words.now) ≡ Some (Run base queue idle first)
        → S.faults script.old < 2 ^ 64 - 1 → S.faults script.new ≡ S.faults script.old
        → S.contents script.old ≡ Some text → parse_of script_of.Run text ≡ Ok (Runs apps)
        → EndsOver base idle first apps (H.contents host.old) (H.contents host.new) (H.faults host.old) (H.faults host.new)
        (K.contents out.old) (K.contents out.new) (K.faults out.old) (K.faults out.new) result }
    // The line of a load is written, which reads no script.
    ensures loads { (number conns bytes queue : ℕ) → command_of (map string_bytes words.now) ≡ Some (Load number conns bytes queue)
        → EndsLoad number conns bytes (K.contents out.old) (K.contents out.new) (K.faults out.old) (K.faults out.new) result
        × (S.contents script.new ≡ S.contents script.old) × (S.faults script.new ≡ S.faults script.old) }
    // What each status of a client says of source, host and sink.
    ensures says { (base : List ℕ) (port idle : ℕ) → command_of (map string_bytes words.now) ≡ Some (Peer base port idle)
        → Says base port idle
        (lent (S.contents script.old) (H.contents host.old) (K.contents out.old) (S.faults script.old) (H.faults host.old) (K.faults out.old) (G.pauses gate.old))
        (lent (S.contents script.new) (H.contents host.new) (K.contents out.new) (S.faults script.new) (H.faults host.new) (K.faults out.new) (G.pauses gate.new))
        result }
    ensures faultless { is_client (command_of (map string_bytes words.now)) ≡ true
        → NoFault
        (lent (S.contents script.old) (H.contents host.old) (K.contents out.old) (S.faults script.old) (H.faults host.old) (K.faults out.old) (G.pauses gate.old))
        (lent (S.contents script.new) (H.contents host.new) (K.contents out.new) (S.faults script.new) (H.faults host.new) (K.faults out.new) (G.pauses gate.new))
        → is_faultless result ≡ true }
    // Each status has its cause.
    ensures status_0 { (kind : Rings) (queue first : ℕ) (text : List ℕ) → command_of (map string_bytes words.now) ≡ Some (Play kind queue first)
        → result ≡ 0 → S.contents script.old ≡ Some text
        → ((play_of queue first text).status ≡ 0) × Emits (K.contents out.old) (K.contents out.new) (joined (play_of queue first text).lines) }
    ensures status_1 { result ≡ 1 → command_of (map string_bytes words.now) ≡ None }
    ensures status_2 { result ≡ 2 → (text : List ℕ) → S.contents script.old ≡ Some text
        → IsNoScript (command_of (map string_bytes words.now)) text }
    ensures status_3 { result ≡ 3 → CountsFault true (S.faults script.old) (S.faults script.new) }
    ensures status_4 { result ≡ 4 → CountsFault true (K.faults out.old) (K.faults out.new) }
    ensures status_5 { result ≡ 5 → uses_host (command_of (map string_bytes words.now)) ≡ true }
    ensures status_6 { result ≡ 6 → CountsFault true (H.faults host.old) (H.faults host.new) }
    ensures status_7 { result ≡ 7 → (command_of (map string_bytes words.now) ≡ Some Hostile)
        × ((text : List ℕ) → S.contents script.old ≡ Some text → (hostile_of text).status ≡ 7) }
    ensures status_8 { result ≡ 8 → is_client (command_of (map string_bytes words.now)) ≡ true }
    ensures statuses { is_status result ≡ true }
    // The headline's first three parts hold of the world that a play reaches, over every script.
    ensures headline { (how : Beginning) (text : List ℕ) (lines : List (ℕ × Event)) → parse_of script_of.Play text ≡ Ok (Plays lines)
        → IsLawful how (map (λ l. l.1) lines) }
    // Its fourth part, of what a hostile guest's run reaches: no stream is given another connection's bytes, and a failure is kept.
    ensures isolated { (text : List ℕ) (lines : List (ℕ × Attack)) → parse_of script_of.Hostile text ≡ Ok (Attacks lines)
        → IsSafe (map (λ l. l.1) lines) }
{
    run(rt, words, script, host, clock, gate, gates, out)
}

// The same, by the command.
fn run<
    R: AllocGlobal + Wait + Threads + Sync,
    S: Source,
    K: Sink,
    H: HostNet,
    C: Clock,
    G: Gate + Send + Drop,
>(
    rt: &R,
    words: &[String],
    script: &mut S,
    host: &mut H,
    clock: &mut C,
    gate: &mut G,
    gates: Vec<G>,
    out: &mut K,
) -> u8
    ensures does { Does (command_of (map string_bytes words.now))
        (lent (S.contents script.old) (H.contents host.old) (K.contents out.old) (S.faults script.old) (H.faults host.old) (K.faults out.old) (G.pauses gate.old))
        (lent (S.contents script.new) (H.contents host.new) (K.contents out.new) (S.faults script.new) (H.faults host.new) (K.faults out.new) (G.pauses gate.new))
        result }
    ensures clock { runs_apps (command_of (map string_bytes words.now)) ≡ false → clock.new ≡ clock.old }
{
    match command_of(rt.alloc(), words) {
        Ok(
            Command::Play {
                rings,
                queue,
                first,
            },
        ) => play_script(rt.alloc(), rings, queue, first, script, out),
        Ok(
            Command::Run {
                base,
                queue,
                idle,
                first,
            },
        ) => run_script(
            rt,
            rt.alloc(),
            base,
            queue,
            idle,
            first,
            script,
            host,
            clock,
            gates,
            out,
        ),
        Ok(Command::Hostile) => hostile_script(rt.alloc(), script, out),
        Ok(
            Command::Load {
                number,
                conns,
                bytes,
                queue,
            },
        ) => load_apps(
            rt,
            rt.alloc(),
            number,
            conns,
            bytes,
            queue,
            clock,
            gates,
            out,
        ),
        Ok(Command::Peer { base, port, idle }) => {
            peer(rt, base, port, idle, script, host, gate, out)
        }
        Err(WordsError::Usage) => ended(out, b"usage\n", USAGE),
        Err(WordsError::OutOfMemory) => no_memory(out),
    }
}
