//! Worked examples: what scripts print, as the definition of a play's answer computes it.

ghost use Rattle.std.specs.Prelude.{◌≡◌};
ghost use Rattle.vs_limits.specs.declared.TheConstants.{FIRST_PORT};
ghost use Rattle.vs_play.specs.{Answer.play_of, Examples.{client, client_answer, resets, resets_answer, timeout, timeout_answer, bad_hex, bad_hex_answer}};

/// A client that connects and talks with the guest, and whose connection gets more buffer space; a transport reset that keeps the listeners;
/// a stream that its host closed and that times out; and a line outside the grammar.
pub fn worked_examples()
    ensures client { play_of 64 FIRST_PORT client ≡ client_answer }
    ensures resets { play_of 64 FIRST_PORT resets ≡ resets_answer }
    ensures timeout { play_of 64 FIRST_PORT timeout ≡ timeout_answer }
    ensures bad_hex { play_of 64 FIRST_PORT bad_hex ≡ bad_hex_answer }
{}
