//! gg_io: sinks, the answers of puts, the bytes written then, and how the counts rise.
ghost use Rattle.std.specs.Io.KnownBytes.{Appends};
ghost use Rattle.std.specs.Prelude.{◌≡◌, ◌++◌, OnOk};
ghost use Rattle.gg_io.specs.inside.PutFail.{faults_after_put};

use crate::fakes::Few;
use gg_io::{FailingPut, MemSink, PutFail, Sink, StreamSink, SureSink};
use std::io::Write;

// The second put writes 3 bytes and fails, the third writes both of its bytes and fails.
static FAILING: [FailingPut; 2] = [
    FailingPut {
        number: 1,
        takes: 3,
    },
    FailingPut {
        number: 2,
        takes: u64::MAX,
    },
];

// A piece, the answer of its put, and the bytes written then.
type Put = (&'static [u8], Result<(), PutFail>, &'static [u8]);

static PUTS: [Put; 4] = [
    (b"first ", Ok(()), b"first "),
    (b"second", Err(PutFail::Failed), b"first sec"),
    (b"on", Err(PutFail::Failed), b"first secon"),
    (b".", Ok(()), b"first secon."),
];

#[test]
fn sink_in_memory(rt: HostRuntime) {
    let mut sink = MemSink::new(rt.alloc(), Vec::new(rt.alloc()));
    assert!(rt; sink.failing.extend_from_slice(&FAILING).is_ok());
    for (piece, want, written) in &PUTS {
        let is_right = sink.put(piece) == *want && sink.bytes.as_slice() == *written;
        assert!(rt; is_right, "{piece:?}");
    }
    assert!(rt; (sink.puts, sink.faults, sink.refused) == (4, 2, 0));
}

static SURE_PUTS: [Put; 3] = [
    (b"one ", Ok(()), b"one "),
    (b"", Ok(()), b"one "),
    (b"two", Ok(()), b"one two"),
];

#[test]
fn sure_sink(rt: HostRuntime) {
    let mut sink = SureSink::new(rt.alloc());
    for (piece, want, written) in &SURE_PUTS {
        let is_right = sink.put(piece) == *want && sink.bytes.as_slice() == *written;
        assert!(rt; is_right, "{piece:?}");
    }
    assert!(rt; sink.refused == 0);
}

// Two puts: where a stream's bytes are known, the contract of `put` determines all of them.
fn put_twice<W: Write + Drop>(
    sink: &mut StreamSink<W>,
    one: &[u8],
    two: &[u8],
) -> Result<(), PutFail>
    ensures written { OnOk result (Appends (W.contents sink.old.stream) (W.contents sink.new.stream) (one.now ++ two.now)) }
    ensures faults { sink.new.faults ≡ faults_after_put result sink.old.faults }
{
    sink.put(one)?;
    sink.put(two)
}

// How many bytes a stream has room for, whether it then fails, the answer of a put of five bytes, and the bytes written then.
static STREAMS: [(usize, bool, Result<(), PutFail>, &[u8; 12]); 4] = [
    (5, true, Ok(()), b"12345......."),
    (5, false, Ok(()), b"12345......."),
    (4, true, Err(PutFail::Failed), b"1234........"),
    (4, false, Err(PutFail::Failed), b"1234........"),
];

#[test]
fn narrow_streams(rt: HostRuntime) {
    for (room, is_broken, want, written) in &STREAMS {
        let mut stream = Few {
            bytes: *b"............",
            next: 0,
            room: *room,
            is_broken: *is_broken,
        };
        let answer = put_twice(&mut StreamSink::new(&mut stream), b"", b"12345");
        assert!(rt;
            answer == *want && stream.bytes == **written,
            "{room} {is_broken}"
        );
    }
}

#[test]
fn other_streams(rt: HostRuntime) {
    let mut stream = Vec::new(rt.alloc());
    let known = put_twice(&mut StreamSink::new(&mut stream), b"one ", b"two");
    assert!(rt; known == Ok(()) && stream.as_slice() == b"one two".as_slice());
    let out = put_twice(
        &mut StreamSink::new(rt.stdout()),
        b"written to ",
        b"standard output\n",
    );
    let err = put_twice(
        &mut StreamSink::new(rt.stderr()),
        b"written to ",
        b"standard error\n",
    );
    assert!(rt; out == Ok(()) && err == Ok(()));
}
