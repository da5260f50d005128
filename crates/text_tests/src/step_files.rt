//! gg_replay: the steps of a file, and the texts of causes, with two channels and a memory of two ports.
ghost use Rattle.std.specs.Prelude.{◌≡◌, IfOk, length};

use gg_bits::Name;
use gg_net::{Event, StepRefusal};
use gg_replay::{StepNames, cause_text, read_steps};
use std::alloc::{AllocError, Global};

static FILE: &[u8] = b"latch x\r\nfire y\n\nserve m w\nfinish m\nserve\tm r";

static STEPS: [Option<Event>; 6] = [
    Some(Event::Latch { channel: 0 }),
    Some(Event::Fire { channel: 1 }),
    None,
    SERVE,
    Some(Event::Finish { machine: 0 }),
    Some(Event::Serve {
        machine: 0,
        port: 0,
    }),
];

// The access of port 1.
const SERVE: Option<Event> = Some(Event::Serve {
    machine: 0,
    port: 1,
});

// Why port 1 wasn't served, and the text of that.
static CAUSES: [(StepRefusal, &str); 5] = [
    (StepRefusal::Stranger, "Stranger"),
    (
        StepRefusal::Full {
            channel: 1,
            len: 4096,
        },
        "Full y 4096",
    ),
    (StepRefusal::Order { due: 0 }, "Order r"),
    (StepRefusal::Order { due: 1 }, "Order w"),
    (StepRefusal::Order { due: 2 }, "Order -"),
];

// The names of the two ports.
fn two_ports(alloc: Global) -> Result<Vec<Name>, AllocError>
    ensures { IfOk result (λ ports. length ports.items ≡ 2) }
{
    Ok(vec![in alloc; Name::from_str(alloc, "r")?, Name::from_str(alloc, "w")?]?)
}

#[test]
fn steps_and_causes(rt: HostRuntime) {
    let Ok(ports) = two_ports(rt.alloc()) else {
        panic!(rt; "no memory");
    };
    let mut names = StepNames::new(rt.alloc());
    let is_named = names.add_channel("x").is_ok()
        && names.add_channel("y").is_ok()
        && names.add_machine("m", &ports).is_ok();
    assert!(rt; is_named);
    let are_read = match read_steps(rt.alloc(), &names, FILE) {
        Ok(steps) => steps.as_slice() == STEPS.as_slice(),
        Err(_) => false,
    };
    assert!(rt; are_read);
    for (cause, text) in &CAUSES {
        let is_told = match cause_text(rt.alloc(), &names, SERVE, *cause) {
            Ok(told) => told.as_str() == *text,
            Err(_) => false,
        };
        assert!(rt; is_told, "{text:?}");
    }
}
