//! The way of the driver's packets.

ghost use Rattle.std.specs.Prelude.{◌≡◌};
ghost use Rattle.vs_driver_parts.specs.Connections.{route_to_host};

use vs_conn::Route;
use vs_flow::Flow;
use vs_limits::HOST_CID;

/// The route of the guest's packets on a flow.
pub fn route_to_host(cid: u64, flow: Flow) -> Route
    ensures { result ≡ route_to_host cid flow }
{
    Route {
        src_cid: cid,
        dst_cid: flow.peer,
        src_port: flow.guest,
        dst_port: flow.host,
    }
}
