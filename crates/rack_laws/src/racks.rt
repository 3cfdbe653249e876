// What holds of the channels of any rack.
ghost use Rattle.rack_laws.specs.Racks.{WaysBack};

// The two channels of a cable are each other's way back.
pub fn ways_back()
    ensures { WaysBack }
{}
