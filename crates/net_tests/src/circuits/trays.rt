//! gg_node: a tray can be built with ample memory.
use gg_node::{Host, Tray};
use std::alloc::{AllocError, Global};

// Whether a tray keeps the last two of three values.
pub(crate) fn keeps_the_last_two(alloc: Global) -> Result<bool, AllocError> {
    let mut tray = Tray::new(alloc, 2)?;
    tray.latch(0, 0, 7);
    tray.finish(0);
    tray.latch(0, 0, 9);
    tray.finish(0);
    tray.latch(0, 0, 5);
    tray.finish(0);
    Ok(
        tray.value(0) == None
            && tray.value(1) == Some(9)
            && tray.value(2) == Some(5)
            && tray.value(3) == None,
    )
}
