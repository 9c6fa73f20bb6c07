//! Laws of the two lines, which the reader of either keeps: each line is read, nothing else is, and each has one port.
ghost use Rattle.std.specs.Prelude.{◌≡◌, ◌≤◌, ℕ, List, [], ◌∷◌, ◌++◌, length, replicate, codes};
ghost use Rattle.vs_uds.specs.{ConnectLine.{IsConnectLine, connect_answers, connect_step}, OkLine.{IsOkLine, ok_answers, ok_step}, Reading.port_at_end};

use crate::connect::CONNECT_MAX;
use crate::ok::OK_MAX;
use crate::scan::Step;

/// A line that comes byte by byte is answered with its port at its last byte, and with More before; bytes that are no
/// line are answered with no port; and no line has two ports.
pub fn lines_are_read()
    ensures connect { (line : List ℕ) (port : ℕ) → IsConnectLine line port → connect_answers line ≡ port_at_end line port }
    ensures connect_alone { (line : List ℕ) (port : ℕ) → length line ≤ CONNECT_MAX → connect_step line ≡ Step.Port port
        → IsConnectLine line port }
    ensures connect_port { (line : List ℕ) (p q : ℕ) → IsConnectLine line p → IsConnectLine line q → p ≡ q }

    ensures ok { (line : List ℕ) (port : ℕ) → IsOkLine line port → ok_answers line ≡ port_at_end line port }
    ensures ok_alone { (line : List ℕ) (port : ℕ) → length line ≤ OK_MAX → ok_step line ≡ Step.Port port → IsOkLine line port }
    ensures ok_port { (line : List ℕ) (p q : ℕ) → IsOkLine line p → IsOkLine line q → p ≡ q }
{}

/// Worked examples: the answers to bytes that come one after another.
pub fn worked_lines()
    ensures any_case { connect_answers (codes "connect 07\r\n") ≡ replicate 11 Step.More ++ Step.Port 7 ∷ [] }
    ensures too_large { connect_answers (codes "CONNECT 4294967296\n") ≡ replicate 18 Step.More ++ Step.Bad ∷ [] }
    ensures too_long { connect_answers (replicate 32 65) ≡ replicate 31 Step.More ++ Step.Bad ∷ [] }
    ensures no_port { connect_answers (codes "CONNECT\n") ≡ replicate 7 Step.More ++ Step.Bad ∷ [] }
    ensures assigned { ok_answers (codes "OK 1073741824\n") ≡ replicate 13 Step.More ++ Step.Port 1073741824 ∷ [] }
{}
