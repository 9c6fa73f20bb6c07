//! What the proxy gives to the host's streams and puts on their flows, over any ring and any host.

ghost use Rattle.std.specs.Prelude.{◌≡◌, ℕ, List, [], Result};
ghost use Rattle.vs_contents.specs.CallTree.{Leads};
ghost use Rattle.vs_outside.specs.Host.{HostContents};
ghost use Rattle.vs_ring_port.specs.declared.failure.Failure.{Failure};
ghost use Rattle.vs_proxy_parts.specs.{State.ProxyState, Turns.new_proxy_at, Turns.proxy_reset_of, Turns.turn_of, declared.answers.Turn.Turn};
ghost use Rattle.laws_proxy.specs.Account.{Carried.Carries, Made.Made, Made.Makes, Made.account_of, Tied.AccountsFor, Told.Shows};

/// The calls that were made for a proxy account for what it holds: before its first call, and after each turn and each reset, whatever the
/// ring answers, and whatever a host that gives no stream twice and moves no more bytes than it is asked to.
pub fn law_of_accounts()
    ensures new { (cid : ℕ) (base : List ℕ) (port : ℕ) → AccountsFor (new_proxy_at cid base port) [] }
    ensures turn { (size now : ℕ) (s : ProxyState) (calls later : List Made) (x : ProxyState × Turn) → AccountsFor s calls
        → Leads Makes (turn_of size now s) calls x later → AccountsFor x.0 later }
    ensures reset { (cid : ℕ) (s : ProxyState) (calls later : List Made) (x : ProxyState × Result (Unit {0}) Failure) → AccountsFor s calls
        → Leads Makes (proxy_reset_of cid s) calls x later → AccountsFor x.0 later }
{}

/// So it is with each stream: what it was given is a prefix of its OK line and the payloads delivered on its own connection. What it was
/// given and what its connection holds are all of them, while the connection gives all. Of a client's stream nothing is taken behind the LF
/// of its line before it has a label. At no time have two streams the connection of one flow; and the payload put on a flow is what was
/// taken of the streams of that flow, each byte once and in order.
pub fn law_of_streams()
    ensures carries { (s : ProxyState) (calls : List Made) → AccountsFor s calls → Carries calls s.device.table }
{}

/// With a host without streams a device and a proxy begin: the accounts of no call show it.
pub fn law_of_new_hosts()
    ensures shows { (host : HostContents) → host.streams ≡ [] → Shows (account_of []) host }
{}
