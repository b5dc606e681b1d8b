// What stands of devices and of the store on them, asked for by contracts.
ghost use Rattle.pages.specs.Promise.{LandedStays};
ghost use Rattle.pages.specs.Store.{Alike};

// What has landed stays, whatever a stop leaves of a write elsewhere, and whatever becomes of the other side.
pub fn landed_stays()
    ensures { LandedStays }
{}

// When power has come up both sides hold the same, and losing either loses nothing.
pub fn power_mends()
    ensures { Alike }
{}
