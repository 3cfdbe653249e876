// The racks of the tests, beside the triangle and the line. Ports are counted from 1 at each node, in the order of the cables; cable k has the channels 2k and 2k + 1.
use rack::cable::Cable;
use rack::fault::RackFault;
use rack::rack::Rack;
use std::alloc::Global;

// Hosts 0 and 1 on the switches 2 and 3, which nothing joins.
pub fn parted(heap: Global) -> Result<Rack, RackFault> {
    Rack::from_tables(
        heap,
        &[1, 1, 2, 2],
        &[Cable::between(0, 1, 2, 1), Cable::between(1, 1, 3, 1)],
    )
}

// Hosts 0 and 1 on the switches 2 and 3, which two cables join.
pub fn twin(heap: Global) -> Result<Rack, RackFault> {
    let cables = [
        Cable::between(0, 1, 2, 1),
        Cable::between(1, 1, 3, 1),
        Cable::between(2, 2, 3, 2),
        Cable::between(2, 3, 3, 3),
    ];
    Rack::from_tables(heap, &[1, 1, 2, 2], &cables)
}

// Hosts 0 and 1 on switch 2, host 0 at its last port: the turn from the last channel, 3, to that port is the last of all.
pub fn corner(heap: Global) -> Result<Rack, RackFault> {
    Rack::from_tables(
        heap,
        &[1, 1, 2],
        &[Cable::between(0, 1, 2, 36), Cable::between(2, 1, 1, 1)],
    )
}
