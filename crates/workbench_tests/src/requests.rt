// Which lines ask for what.
use fabric::call::Call;
use fabric::packet::VirtualChannel;
use routing::pair::Pair;
use std::alloc::{AllocError, Global};
use std::test::*;
use workbench::request::Request;

// Whether a line asks for something.
fn asks(heap: Global, line: &[u8]) -> Result<bool, AllocError> {
    Ok(Request::of_bytes(heap, line)?.is_some())
}

#[test]
fn calls_are_read(rt: HostRuntime) -> Result<(), Fail> {
    let heap = rt.alloc();
    match Request::of_line(heap, "  admit 1\t2 4294967295 ")? {
        Some(Request::Call(Call::Admit { pair, tag })) => {
            assert_eq!(rt; pair, Pair::of(1, 2));
            assert_eq!(rt; tag, 4294967295);
        }
        _ => return Err(Fail::new("none")),
    }
    match Request::of_line(heap, "forward 65535")? {
        Some(Request::Call(Call::Forward(from))) => assert_eq!(rt; from, VirtualChannel(65535)),
        _ => return Err(Fail::new("none")),
    }
    match Request::of_line(heap, "take 007")? {
        Some(Request::Call(Call::Take(from))) => assert_eq!(rt; from, VirtualChannel(7)),
        _ => return Err(Fail::new("none")),
    }
    assert!(rt; asks(heap, b"waiting")?);
    assert!(rt; asks(heap, b"close\r")?);
    Ok(())
}

#[test]
fn other_lines_are_no_calls(rt: HostRuntime) -> Result<(), Fail> {
    let heap = rt.alloc();
    assert!(rt; !asks(heap, b"")?);
    assert!(rt; !asks(heap, b"forward")?);
    assert!(rt; !asks(heap, b"forward 65536")?);
    assert!(rt; !asks(heap, b"forward 1 2")?);
    assert!(rt; !asks(heap, b"Forward 1")?);
    assert!(rt; !asks(heap, b"take -1")?);
    assert!(rt; !asks(heap, b"admit 1 2")?);
    assert!(rt; !asks(heap, b"admit 1 2 4294967296")?);
    assert!(rt; !asks(heap, &[b'w', 255])?);
    Ok(())
}
