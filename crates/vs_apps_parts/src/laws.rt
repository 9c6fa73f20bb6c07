//! Worked runs of apps.

ghost use Rattle.std.specs.Prelude.{◌≡◌, [], ◌∷◌, codes, None, Some, true};
ghost use Rattle.laws_driver.specs.Carried.Calls.{received_by};
ghost use Rattle.vs_script.specs.{App.{Accept, Close, Connect, Drain, Exchange, Recv, Send}, Data.Given};
ghost use Rattle.vs_apps_parts.specs.Examples.{accepted_one, answered, asked, at_next, bad_port, both_wait, closed_it, drained, full, greeters, greeting, heard_nothing};
ghost use Rattle.vs_apps_parts.specs.Examples.{heard_unknown, hi, looked, no_credit, none_waiting, opened, said, sent_he, sent_hello, sent_llo, sent_nothing, shut_down};
ghost use Rattle.vs_apps_parts.specs.{Journals.{calls_of, calls_of_app, last_wait, sent_as}, Scripts.{Goes, begun, on_to_next, told_in, with_noted, IsPlayed, acts_of}};
ghost use Rattle.vs_apps_parts.specs.Told.{step_wait};
ghost use Rattle.vs_apps_parts.specs.declared.journal.WaitsFor.TheVariants as waits;

/// Steps of an app, each with the instruction that it is at.
pub fn worked_steps()
    ensures asks { Goes (Connect 52) begun asked (record begun { asked = true; conn = Some 1 }) }
    ensures looks { step_wait (told_in looked) ≡ Some waits.NotOpen }
    ensures opens { Goes (Connect 52) (record begun { asked = true; conn = Some 1 }) opened (at_next 1) }
    ensures full { step_wait (told_in full) ≡ Some waits.Full }
    ensures bad_port { Goes (Connect 2000000000) begun bad_port (on_to_next begun) }
    ensures accepts { Goes (Accept 70) (at_next 3) accepted_one (record (at_next 4) { conn = Some 2 }) }
    ensures none { step_wait (told_in none_waiting) ≡ Some waits.NoneWaiting }
    ensures sends { Goes (Send (Given (codes "hello"))) (at_next 1) sent_hello (at_next 2) }
    ensures sends_some { Goes (Send (Given (codes "hello"))) (at_next 1) sent_he (record (at_next 1) { sent = 2 }) }
    ensures no_credit { Goes (Send (Given (codes "hello"))) (record (at_next 1) { sent = 2 }) no_credit (record (at_next 1) { sent = 2 }) }
    ensures sends_rest { Goes (Send (Given (codes "hello"))) (record (at_next 1) { sent = 2 }) sent_llo (at_next 2) }
    ensures not_open { Goes (Send (Given [])) (at_next 1) sent_nothing (at_next 1) }
    ensures closes { Goes Close (at_next 2) closed_it (at_next 3) }
    ensures empty { Goes (Recv 1) (at_next 1) heard_nothing (at_next 1) }
    ensures unknown { Goes (Recv 1) begun heard_unknown (on_to_next begun) }
    ensures drains { Goes Drain (at_next 1) drained (at_next 1) }
{}

/// Steps of an exchange: a call that waits is noted by nothing where the other one didn't wait.
pub fn worked_exchanges()
    ensures nothing { Goes (Exchange (Given [])) (at_next 1) [] (at_next 2) }
    ensures says { Goes hi (at_next 1) said (record (at_next 1) { sent = 2 }) }
    ensures no_wait { step_wait (told_in said) ≡ None }
    ensures noted { sent_as 1 (with_noted said []) ≡ codes "hi" }
    ensures hears { Goes hi (record (at_next 1) { sent = 2 }) answered (at_next 2) }
    ensures waits { step_wait (told_in both_wait) ≡ Some waits.Empty }
    ensures shut { Goes hi (at_next 1) shut_down (at_next 2) }
{}

/// A journal of two apps.
pub fn worked_journal()
    ensures sent { sent_as 1 (calls_of greeters (codes "a") greeting) ≡ codes "hello" }
    ensures received { received_by 2 (calls_of greeters (codes "a") greeting) ≡ codes "a" }
    ensures none_sent { sent_as 2 (calls_of greeters (codes "a") greeting) ≡ [] }
    ensures done { IsPlayed (acts_of 0 greeters) (calls_of_app 0 greeters (codes "a") greeting) (at_next 3) }
    ensures goes_on { last_wait 0 greeting ≡ None }
    ensures waits { last_wait 1 greeting ≡ Some 8 }
{}
