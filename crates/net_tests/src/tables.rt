//! The test of all tables.
use crate::direct::DIRECT;
use crate::networks::{NETWORKS, check_networks};
use crate::pipes::PIPED;
use crate::sharing::SHARES;

#[test]
fn networks_run(rt: HostRuntime) {
    let alloc = rt.alloc();
    check_networks(&rt, alloc, "NETWORKS", NETWORKS);
    check_networks(&rt, alloc, "DIRECT", DIRECT);
    check_networks(&rt, alloc, "SHARES", SHARES);
    check_networks(&rt, alloc, "PIPED", PIPED);
}
