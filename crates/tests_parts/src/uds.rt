//! The lines CONNECT and OK, and the listening path.

use vs_uds::{ConnectLine, Step, connect_line, listen_path, ok_line};

// What is read of a line's bytes.
fn read(bytes: &[u8]) -> Step {
    let mut line = ConnectLine::new();
    let mut step = Step::More;
    for byte in bytes {
        step = line.feed(*byte);
    }
    step
}

#[test]
fn lines_and_path(rt: HostRuntime) {
    assert!(rt; read(b"Connect  0070 \r\n") == Step::Port(70));
    assert!(rt; ok_line(1_073_741_824).as_str() == "OK 1073741824\n");
    assert!(rt; connect_line(70).as_str() == "CONNECT 70\n");
    assert!(rt; listen_path("v.sock", 52).as_str() == "v.sock_52");
}
