// Demand 3 and the round trip, each as the promise of a function, so that the check shows it by name. There is nothing to run here.
#![tactic(auto)]

ghost use Rattle.delivery.specs.Calls.{Demand3};
ghost use Rattle.delivery.specs.RoundTrip.{RoundTrip};

// Demand 3: what a fresh record hands out of lines that our writer wrote.
pub fn demand3()
    ensures { Demand3 }
{}

// The round trip: what our writer writes is read back.
pub fn round_trip()
    ensures { RoundTrip }
{}
