// The laws of rack files and of the tables that they give.
ghost use Rattle.rack_laws.specs.Files.{OneAnswer, OneValue, PortsApart, AcceptedKeeps, OneWayOut, OneCable, OneAtPort, WrittenAccepted, WrittenRead, FilesGiveRacks};

// A file has one answer.
pub fn one_answer()
    ensures { OneAnswer }
{}

// An accepted file gives every place of the tables one value.
pub fn one_value()
    ensures { OneValue }
{}

// As far as records keep the rules, no two cables share a port.
pub fn ports_apart()
    ensures { PortsApart }
{}

// What reading accepts keeps the rules of a rack.
pub fn accepted_keeps()
    ensures { AcceptedKeeps }
{}

// One channel leaves a host, and enters a switch.
pub fn one_way_out()
    ensures { OneWayOut }
{}

// A host has one cable, and its other end is at a switch.
pub fn one_cable()
    ensures { OneCable }
{}

// One cable at most ends at a port.
pub fn one_at_port()
    ensures { OneAtPort }
{}

// The file written out from tables that keep the rules is accepted with these tables.
pub fn written_accepted()
    ensures { WrittenAccepted }
{}

// Reading that file gives these tables and nothing else.
pub fn written_read()
    ensures { WrittenRead }
{}

// Files give exactly the tables that keep the rules of a rack.
pub fn files_give_racks()
    ensures { FilesGiveRacks }
{}
