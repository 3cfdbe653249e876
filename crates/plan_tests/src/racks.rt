// Racks that are planned, or refused, beside the triangle and the line.
use rack::cable::Cable;
use rack::fault::RackFault;
use rack::rack::Rack;
use std::alloc::Global;

// The line with the ends of each cable the other way round: each channel has the number of its way back. A table of its own, as for every rack here.
pub fn turned_line(heap: Global) -> Result<Rack, RackFault> {
    let nodes = [1u8, 1, 1, 1, 2, 2, 2, 2];
    let cables = [
        Cable::between(4, 1, 0, 1),
        Cable::between(5, 1, 1, 1),
        Cable::between(6, 1, 2, 1),
        Cable::between(7, 1, 3, 1),
        Cable::between(5, 2, 4, 2),
        Cable::between(6, 2, 5, 3),
        Cable::between(7, 2, 6, 3),
    ];
    Rack::from_tables(heap, &nodes, &cables)
}

// One host on a switch.
pub fn lone(heap: Global) -> Result<Rack, RackFault> {
    Rack::from_tables(heap, &[1, 2], &[Cable::between(0, 1, 1, 1)])
}

// No nodes.
pub fn nothing(heap: Global) -> Result<Rack, RackFault> {
    Rack::from_tables(heap, &[], &[])
}

// Hosts 0 to 3, two each on the switches 5 and 6 under switch 4; two cables join 5 and 4.
pub fn tree(heap: Global) -> Result<Rack, RackFault> {
    let cables = [
        Cable::between(0, 1, 5, 1),
        Cable::between(1, 1, 5, 2),
        Cable::between(2, 1, 6, 1),
        Cable::between(3, 1, 6, 2),
        Cable::between(5, 3, 4, 1),
        Cable::between(6, 3, 4, 2),
        Cable::between(5, 4, 4, 3),
    ];
    Rack::from_tables(heap, &[1, 1, 1, 1, 2, 2, 2], &cables)
}

// Hosts 0 to 4 on the switches 5 to 9, which are joined in a ring.
pub fn pentagon(heap: Global) -> Result<Rack, RackFault> {
    let cables = [
        Cable::between(0, 1, 5, 1),
        Cable::between(1, 1, 6, 1),
        Cable::between(2, 1, 7, 1),
        Cable::between(3, 1, 8, 1),
        Cable::between(4, 1, 9, 1),
        Cable::between(5, 2, 6, 2),
        Cable::between(6, 3, 7, 2),
        Cable::between(7, 3, 8, 2),
        Cable::between(8, 3, 9, 2),
        Cable::between(9, 3, 5, 3),
    ];
    Rack::from_tables(heap, &[1, 1, 1, 1, 1, 2, 2, 2, 2, 2], &cables)
}

// Hosts 0 and 1 on the switches 4 and 7 of six, which more cables join than a tree has.
pub fn chords(heap: Global) -> Result<Rack, RackFault> {
    let cables = [
        Cable::between(0, 1, 4, 1),
        Cable::between(1, 1, 7, 1),
        Cable::between(2, 1, 3, 1),
        Cable::between(2, 2, 4, 2),
        Cable::between(3, 2, 4, 3),
        Cable::between(3, 3, 7, 2),
        Cable::between(3, 4, 6, 1),
        Cable::between(4, 4, 5, 1),
        Cable::between(5, 2, 6, 2),
        Cable::between(6, 3, 7, 3),
    ];
    Rack::from_tables(heap, &[1, 1, 2, 2, 2, 2, 2, 2], &cables)
}

// Hosts 0 and 1 on the switches 2 and 3, which nothing joins.
pub fn parted(heap: Global) -> Result<Rack, RackFault> {
    Rack::from_tables(
        heap,
        &[1, 1, 2, 2],
        &[Cable::between(0, 1, 2, 1), Cable::between(1, 1, 3, 1)],
    )
}
