// Racks of the tests: so many switches in a ring, each with a host, and all forwarding clockwise or none.
use std::alloc::Global;
use std::test::*;
use workbench::rack_file::RackFile;

// So many nodes of a kind, numbered from a number on.
fn add_nodes(file: &mut Vec<u8>, kind: u8, from: u8, count: u8) -> Result<(), Fail> {
    for i in 0..count {
        file.extend_from_slice(&[kind, 0, from.saturating_add(i), 0, 0, 0, 0, 0])?;
    }
    Ok(())
}

// The cables from hosts to their switches.
fn add_host_cables(file: &mut Vec<u8>, count: u8) -> Result<(), Fail> {
    for i in 0..count {
        file.extend_from_slice(&[b'C', 0, i, 1, 0, count.saturating_add(i), 1, 0])?;
    }
    Ok(())
}

// The cables from switches to the next.
fn add_ring(file: &mut Vec<u8>, count: u8) -> Result<(), Fail> {
    for i in 0..count {
        let next = (i + 1) % count;
        file.extend_from_slice(&[
            b'C',
            0,
            count.saturating_add(i),
            2,
            0,
            count.saturating_add(next),
            3,
            0,
        ])?;
    }
    Ok(())
}

// The forwarding entries of one switch: by port 1 to its own host, clockwise to all others.
fn add_entries(file: &mut Vec<u8>, count: u8, i: u8) -> Result<(), Fail> {
    for host in 0..count {
        let port = if i == host { 1 } else { 2 };
        let switch = count.saturating_add(i);
        file.extend_from_slice(&[b'F', 0, switch, 0, host, port, 0, 0])?;
    }
    Ok(())
}

// The rack of `count` switches in a ring: hosts 0 to count - 1, switch `count + i` at host i.
// Port 1 of a switch goes to its host, port 2 to the next switch, port 3 to the one before.
pub fn ring(heap: Global, count: u8, clockwise: bool) -> Result<RackFile, Fail> {
    let mut file = Vec::new(heap);
    add_nodes(&mut file, b'H', 0, count)?;
    add_nodes(&mut file, b'S', count, count)?;
    add_host_cables(&mut file, count)?;
    add_ring(&mut file, count)?;
    let forwarding = if clockwise { count } else { 0 };
    for i in 0..forwarding {
        add_entries(&mut file, count, i)?;
    }
    Ok(RackFile::read(heap, &file)?)
}
