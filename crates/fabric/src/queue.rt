// The queue of one virtual channel.
use crate::packet::Packet;
use std::marker::Model;

pub mod entries;
pub(crate) mod row;

// Up to eight packets, the first to leave first. An array and a count, and no `Vec`: queues are lent, and take no memory of their own.
#[derive(Clone, Copy)]
pub struct Queue {
    packets: [Packet; 8],
    // how many packets wait; in the places behind them stands `Packet::none()`
    len: usize,
}

// Clauses see the packets that wait.
impl Model for Queue {
    ghost use Rattle.std.specs.Prelude.{◌≡◌, List, length, take};
    ghost use Rattle.fabric.specs.declared.packet.Packet.{Packet};
    ghost use Rattle.fabric.specs.Padded.{Padded, padded, padded-take};

    ghost Value = { List Packet };

    ghost view = { λ q. take q.len q.packets };

    ghost invariant = { λ q. Padded q.packets q.len };

    ghost inverse = { λ ps. record { packets = padded ps; len = length ps } };

    ghost inverse_ok = { λ q h. λ i. record { packets = (padded-take q.packets q.len h).0 i; len = (padded-take q.packets q.len h).1 i } };
}
