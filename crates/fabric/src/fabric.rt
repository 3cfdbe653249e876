// An open fabric.
ghost use Rattle.std.specs.Prelude.{◌≤◌};

pub mod close;
pub mod forward;
pub mod given;
pub mod open;
pub mod run;
pub mod traffic;

// Made by `open` alone and ended by `close`; it cannot be copied. The plan and the queues are lent to every call, and are no part of it.
#[derive(Drop)]
pub struct Fabric {
    // how many packets may wait in each queue
    depth: u8,
    ghost some: { 1 ≤ depth },
    ghost few: { depth ≤ 8 },
}
