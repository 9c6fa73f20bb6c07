//! The client of the mapping over real Unix sockets, and the machine's readers and writers.

use crate::client::client;
use std::alloc::{AllocError, AllocGlobal};
use std::fs::{self, Files};
use std::io::{self, Read, Write};
use std::net::Net;
use std::os::unix::net::{UnixListener, UnixStream};
use std::sync::Wait;
use std::test::Fail;
use std::thread::{self, Threads};
use std::time::Duration;
use std::{process, time};
use vs_flow::Flow;
use vs_outside::{
    Accepted, Clock, Dialed, HostNet, MemSink, MemSource, Sink, SinkWrite, Source, SourceRead,
    Started, StreamRead, StreamWrite,
};
use vs_peer::{DONE, REFUSED, WAITED};
use vs_real::{BackoffGate, MachineClock, ReadSource, StartError, UnixHost, WriteSink};

/// Steps in a row in which nothing moves, where the other end answers at last.
const PATIENT: u32 = 1_000_000;

/// More bytes than a socket holds.
const BYTES: usize = 500_000;

/// What a listener does with its one client.
#[derive(Clone, Copy)]
enum Answer {
    /// It answers by an OK line and gives back what it gets.
    Echo,
    /// It reads the CONNECT line and closes.
    Close,
    /// It closes without reading.
    CloseAtOnce,
    /// It answers by another line.
    Other,
    /// It never answers.
    Silent,
}

/// Serves one client.
fn serve(listener: UnixListener, answer: Answer) -> io::Result<()> {
    let (mut stream, _) = listener.accept()?;
    if matches!(answer, Answer::CloseAtOnce) {
        return Ok(());
    }
    read_line(&mut stream)?;
    match answer {
        Answer::Echo => {
            stream.write_all(b"OK 1073741824\n")?;
            io::copy(&mut &stream, &mut &stream)?;
        }
        Answer::Other => stream.write_all(b"ok 1073741824\n")?,
        Answer::Silent => read_to_end(&mut stream)?,
        _ => {}
    }
    Ok(())
}

/// Reads up to an LF.
fn read_line(stream: &mut UnixStream) -> io::Result<()> {
    let mut byte = [0];
    for _ in 0..32 {
        stream.read(&mut byte)?;
        if byte == [b'\n'] {
            break;
        }
    }
    Ok(())
}

/// Reads until the other end closes.
fn read_to_end(stream: &mut UnixStream) -> io::Result<()> {
    let mut byte = [0];
    for _ in 0..u64::MAX {
        if stream.read(&mut byte)? == 0 {
            break;
        }
    }
    Ok(())
}

/// The status of a client over real sockets that sends so many bytes, and what it wrote.
fn sending<R: AllocGlobal + Wait + time::Clock + Clone + Drop, H: HostNet>(
    rt: &R,
    host: &mut H,
    path: &str,
    bytes: usize,
    idle: u32,
) -> Result<(u8, MemSink), AllocError> {
    let bytes = vec![in rt.alloc(); 7; bytes]?;
    let mut source = MemSource::new(rt.alloc(), bytes, 4096);
    let mut sink = MemSink::new(rt.alloc(), 4096);
    let mut gate = BackoffGate::new(rt.clone()?);
    let status = client(rt, path, idle, &mut source, host, &mut gate, &mut sink);
    Ok((status, sink))
}

/// Whether a client ends with that status and text, at a listener that does so.
fn ends<R: AllocGlobal + Wait + Threads + Net + Files + time::Clock + Clone + Drop>(
    rt: &R,
    path: &str,
    answer: Answer,
    idle: u32,
    status: u8,
    written: &[u8],
) -> Result<bool, Fail> {
    let listener = UnixListener::bind(rt, path)?;
    let server = thread::spawn(rt, move || serve(listener, answer))?;
    let mut host = UnixHost::new(rt.clone()?)?;
    let (ended, sink) = sending(rt, &mut host, path, 2, idle)?;
    let faults = host.faults();
    drop(host);
    let _ = server.join(rt);
    fs::remove_file(rt, path)?;
    Ok(ended == status && faults == 0 && sink.bytes() == written)
}

#[test]
fn a_client_and_an_echo(rt: HostRuntime) -> Result<(), Fail> {
    let path = format!(in rt.alloc(); "/tmp/vs_real-{}-echo", process::id(rt.process()))?;
    let listener = UnixListener::bind(&rt, path.as_str())?;
    let server = thread::spawn(&rt, move || serve(listener, Answer::Echo))?;
    let mut host = UnixHost::new(rt.clone()?)?;
    let (status, sink) = sending(&rt, &mut host, path.as_str(), BYTES, PATIENT)?;
    server.join(&rt)?;
    fs::remove_file(&rt, path.as_str())?;
    assert_eq!(rt; (status, host.faults()), (DONE, 0));
    assert_eq!(rt; sink.bytes().len(), BYTES + 16);
    assert!(rt; sink.bytes().starts_with(b"port 1073741824\n"));
    assert!(rt; sink.bytes().ends_with(&[7; 4096]));
    Ok(())
}

#[test]
fn listeners_that_give_no_ok_line(rt: HostRuntime) -> Result<(), Fail> {
    let refused = b"peer refused\n".as_slice();
    let path = format!(in rt.alloc(); "/tmp/vs_real-{}-refuse", process::id(rt.process()))?;
    for answer in [Answer::Close, Answer::CloseAtOnce, Answer::Other] {
        assert!(rt; ends(&rt, path.as_str(), answer, PATIENT, REFUSED, refused)?);
    }
    Ok(())
}

#[test]
fn a_listener_that_never_answers(rt: HostRuntime) -> Result<(), Fail> {
    let path = format!(in rt.alloc(); "/tmp/vs_real-{}-silent", process::id(rt.process()))?;
    assert!(rt;
        ends(
            &rt,
            path.as_str(),
            Answer::Silent,
            50,
            WAITED,
            b"waited 50\n"
        )?
    );
    Ok(())
}

#[test]
fn nobody_listens(rt: HostRuntime) -> Result<(), Fail> {
    let path = format!(in rt.alloc(); "/tmp/vs_real-{}-nobody", process::id(rt.process()))?;
    let mut host = UnixHost::new(rt.clone()?)?;
    let (status, sink) = sending(&rt, &mut host, path.as_str(), 2, PATIENT)?;
    assert_eq!(rt; (status, host.faults()), (REFUSED, 0));
    assert_eq!(rt; sink.bytes(), b"peer refused\n".as_slice());
    Ok(())
}

/// Listens at a path, and connects to it.
fn connected<H: HostNet>(host: &mut H, path: &str) -> bool {
    let flow = Flow::to_host(70, 0);
    host.start(path) == Started::Ready
        && host.accept() == Accepted::None
        && host.dial(path, flow) == Dialed::Stream(1)
}

#[test]
fn a_host_accepts_its_own_dial(rt: HostRuntime) -> Result<(), Fail> {
    let path = format!(in rt.alloc(); "/tmp/vs_real-{}-accept", process::id(rt.process()))?;
    let mut host = UnixHost::new(rt.clone()?)?;
    assert!(rt; connected(&mut host, path.as_str()));

    // The call that polls accepts.
    assert_eq!(rt; host.accept(), Accepted::Stream(2));
    assert_eq!(rt; host.faults(), 0);

    // The path goes with its host.
    assert!(rt; fs::exists(&rt, path.as_str())?);
    drop(host);
    assert!(rt; !fs::exists(&rt, path.as_str())?);
    Ok(())
}

#[test]
fn a_start_tells_what_is_in_its_way(rt: HostRuntime) -> Result<(), Fail> {
    let path = format!(in rt.alloc(); "/tmp/vs_real-{}-start", process::id(rt.process()))?;
    let lost = format!(in rt.alloc(); "/tmp/vs_real-{}-none/v.sock", process::id(rt.process()))?;
    let mut first = UnixHost::new(rt.clone()?)?;
    let mut second = UnixHost::new(rt.clone()?)?;
    assert!(rt; first.start(path.as_str()) == Started::Ready);
    assert!(rt; second.start(path.as_str()) == Started::Failed);
    assert!(rt; second.start_error() == Some(StartError::PathExists));
    assert!(rt; second.start(lost.as_str()) == Started::Failed);
    assert!(rt; second.start_error() == Some(StartError::NoFolder));

    // What another host made stays.
    drop(second);
    assert!(rt; fs::exists(&rt, path.as_str())?);
    Ok(())
}

#[test]
fn a_client_that_came_in_a_wait_is_accepted_at_once(rt: HostRuntime) -> Result<(), Fail> {
    let path = format!(in rt.alloc(); "/tmp/vs_real-{}-wait", process::id(rt.process()))?;
    let mut host = UnixHost::new(rt.clone()?)?;
    assert!(rt; connected(&mut host, path.as_str()));
    host.wait(Duration::from_secs(1));
    assert!(rt; host.accept() == Accepted::Stream(2));
    Ok(())
}

/// The first bytes of a source, through a sink, at two moments that don't fall.
fn copied<S: Source, K: Sink, C: Clock>(source: &mut S, sink: &mut K, clock: &mut C) -> bool {
    let before = clock.now();
    let mut room = [0; 4];
    let read = source.read(&mut room);
    let wrote = sink.write(&room);
    read == SourceRead::Got(4) && wrote == SinkWrite::Took(4) && before <= clock.now()
}

#[test]
fn bytes_pass_from_a_reader_to_a_writer(rt: HostRuntime) -> Result<(), Fail> {
    let mut written = [0u8; 8];
    let mut source = ReadSource::new(b"abcdef".as_slice());
    let mut sink = WriteSink::new(written.as_mut_slice());
    let mut clock = MachineClock::new(rt.clone()?)?;
    assert!(rt; copied(&mut source, &mut sink, &mut clock));
    drop(sink);
    assert_eq!(rt; &written, b"abcd\0\0\0\0");
    Ok(())
}
