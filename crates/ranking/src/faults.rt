// Why `rank` gives no ranks.
#[derive(Clone, Copy, PartialEq, Eq, Debug)]
pub enum RankFault {
    // A table has fewer places than there are points.
    Tables,
    // The first `length` places of the ring table hold a ring.
    Ring { length: u16 },
}
