// Files to read, written record by record, and tables to read them into.
use rack::cable::Cable;
use reading::add::Counts;
use reading::fault::FileFault;
use reading::limits::Limits;
use reading::read::read;
use std::alloc::{AllocError, Global};
use std::process::Abort;
use std::test::*;

// One record of a file.
#[derive(Clone, Copy)]
pub enum Line {
    Host(u16),
    Switch(u16),
    // from a port of a node to a port of a node
    Joins(u16, u8, u16, u8),
    // at a switch, for a host, by a port
    Forwards(u16, u16, u8),
    Bytes([u8; 8]),
}

// A kind and a node.
fn node_record(kind: u8, v: u16) -> [u8; 8] {
    let [high, low] = v.to_be_bytes();
    [kind, high, low, 0, 0, 0, 0, 0]
}

impl From<Line> for [u8; 8] {
    fn from(line: Line) -> [u8; 8] {
        match line {
            Line::Host(v) => node_record(b'H', v),
            Line::Switch(v) => node_record(b'S', v),
            Line::Joins(v, p, w, q) => {
                let [v_high, v_low] = v.to_be_bytes();
                let [w_high, w_low] = w.to_be_bytes();
                [b'C', v_high, v_low, p, w_high, w_low, q, 0]
            }
            Line::Forwards(w, v, p) => {
                let [w_high, w_low] = w.to_be_bytes();
                let [v_high, v_low] = v.to_be_bytes();
                [b'F', w_high, w_low, v_high, v_low, p, 0, 0]
            }
            Line::Bytes(raw) => raw,
        }
    }
}

// Puts a record at the end of a file.
pub fn add(file: &mut Vec<u8>, line: Line) -> Result<(), AllocError> {
    file.extend_from_slice(&<[u8; 8]>::from(line))
}

pub fn file(heap: Global, lines: &[Line]) -> Result<Vec<u8>, AllocError> {
    let mut out = Vec::new(heap);
    for line in lines {
        add(&mut out, *line)?;
    }
    Ok(out)
}

// What each place holds before a file is read.
pub const MARK: u8 = 9;

// Tables with marks at every place.
#[derive(Drop)]
pub struct Tables {
    pub nodes: Vec<u8>,
    pub cables: Vec<Cable>,
    pub forwarding: Vec<u16>,
}

impl Tables {
    // Tables with as many places.
    pub fn new(
        heap: Global,
        nodes: usize,
        cables: usize,
        forwarding: usize,
    ) -> Result<Tables, AllocError> {
        let mark = Cable::between(9, 9, 9, 9);
        Ok(Tables {
            nodes: vec![in heap; MARK; nodes]?,
            cables: vec![in heap; mark; cables]?,
            forwarding: vec![in heap; 9u16; forwarding]?,
        })
    }

    // Tables with some places more than reading needs.
    pub fn longer(heap: Global) -> Result<Tables, AllocError> {
        Tables::new(heap, 130, 259, 16388)
    }

    pub fn read(&mut self, file: &[u8], limits: Limits) -> Result<Counts, FileFault> {
        read(
            file,
            limits,
            &mut self.nodes,
            &mut self.cables,
            &mut self.forwarding,
        )
    }

    // Every place from the given ones on holds its mark.
    pub fn check_marks(
        &self,
        rt: &impl Abort,
        nodes: usize,
        cables: usize,
        forwarding: usize,
    ) -> Result<(), Fail> {
        let mark = Cable::between(9, 9, 9, 9);
        assert!(rt; self.nodes.iter().skip(nodes).all(|kind| *kind == MARK));
        assert!(rt; self.cables.iter().skip(cables).all(|laid| *laid == mark));
        assert!(rt; self.forwarding.iter().skip(forwarding).all(|hop| *hop == 9));
        Ok(())
    }

    // Every place that reading needs is zero.
    pub fn check_zero(&self, rt: &impl Abort) -> Result<(), Fail> {
        assert!(rt; self.nodes.iter().take(128).all(|kind| *kind == 0));
        assert!(rt;
            self.cables
                .iter()
                .take(256)
                .all(|laid| *laid == Cable::none())
        );
        assert!(rt; self.forwarding.iter().take(16384).all(|hop| *hop == 0));
        Ok(())
    }
}

// The file is refused with the number, for the record or host; the needed places are zero then, and the others are as they were.
pub fn check_refused(
    rt: &impl Abort,
    heap: Global,
    file: &[u8],
    limits: Limits,
    number: u8,
    about: usize,
) -> Result<(), Fail> {
    let mut tables = Tables::longer(heap)?;
    match tables.read(file, limits) {
        Ok(_) => Err(Fail::new("accepted")),
        Err(fault) => {
            assert_eq!(rt; (fault.number(), fault.record()), (number, about));
            tables.check_zero(rt)?;
            tables.check_marks(rt, 128, 256, 16384)
        }
    }
}

// The file is accepted with the counts, and the places beyond those needed are as they were.
pub fn check_accepted(
    rt: &impl Abort,
    heap: Global,
    file: &[u8],
    limits: Limits,
    counts: Counts,
) -> Result<(), Fail> {
    let mut tables = Tables::longer(heap)?;
    let told = tables.read(file, limits)?;
    assert_eq!(rt; told, counts);
    tables.check_marks(rt, 128, 256, 16384)
}
