//! gg_partfile: a partition with all its keys is read, and faults name the key.
use gg_partfile::{Request, read_partition};

static WHOLE: &str =
    "{\"units\": [\"a\", \"b.c\"], \"share\": [[\"a\", \"b.c\"]], \"memories\": [\"b.m\"], \"capacity\": {\"y\": 4, \"x\": 0}}";

// Whether this is the request of the whole partition: its units, and how many entries the other keys have.
fn is_whole(request: &Request) -> bool {
    let units = request.units.as_slice();
    units.len() == 2
        && units[0].as_str() == "a"
        && units[1].as_str() == "b.c"
        && request.share.as_slice().len() == 1
        && request.memories.as_slice().len() == 1
        && request.capacity.as_slice().len() == 2
}

// A partition that is refused, and the text of its fault.
static FAULTS: [(&[u8], &str); 3] = [
    (b"{\"units\": [\"\xff\"]}", "P1 -"),
    (b"{\"zone\": 0, \"clock\": 0}", "P1 clock"),
    (b"{\"capacity\": {\"x\": 1.0}, \"zone\": 0}", "P1 capacity"),
];

#[test]
fn whole_partition(rt: HostRuntime) {
    let is_read = match read_partition(rt.alloc(), WHOLE.as_bytes()) {
        Ok(request) => is_whole(&request),
        Err(_) => false,
    };
    assert!(rt; is_read);
}

#[test]
fn faults(rt: HostRuntime) {
    for (bytes, text) in &FAULTS {
        let is_told = match read_partition(rt.alloc(), bytes) {
            Ok(_) => false,
            Err(fault) => match format!(in rt.alloc(); "{fault}") {
                Ok(told) => told.as_str() == *text,
                Err(_) => false,
            },
        };
        assert!(rt; is_told, "{text:?}");
    }
}
