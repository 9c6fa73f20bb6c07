//! Laws of the connections that a host's streams are.
ghost use Rattle.std.specs.Prelude.{◌≡◌, ℕ, Some, IsSomeAnd};
ghost use Rattle.vs_flow.specs.Connection.{Connection};
ghost use Rattle.vs_outside.specs.{Host.HostContents, Host.stream_at, HostBytes.connection_at, HostBytes.stream_of};

/// The stream of the connection that a stream is, is that stream, and its label is the connection's flow. So no two streams are one
/// connection.
pub fn law_of_connections()
    ensures stream { (id : ℕ) (k : Connection) (c : HostContents) → connection_at id c ≡ Some k → stream_of k c ≡ stream_at id c }
    ensures label { (id : ℕ) (k : Connection) (c : HostContents) → connection_at id c ≡ Some k
        → IsSomeAnd (stream_at id c) (λ s. s.label ≡ Some k.flow) }
    ensures one { (i j : ℕ) (k : Connection) (c : HostContents) → connection_at i c ≡ Some k → connection_at j c ≡ Some k → i ≡ j }
{}
