ghost use Rattle.std.specs.Prelude.{◌≡◌, ℕ};
ghost use Rattle.banks.specs.Meaning.{Meaning, Lawful};
ghost use Rattle.banks.specs.Calls.{Request, Reply, OpenOf, ArriveOf, DepartOf, TurnOf, ReadOf};
ghost use Rattle.banks.specs.Calls.{open_one, arrive as arriving, depart as departing, turn as turning, reading as asking};
ghost use Rattle.banks.specs.Calls.{opened as answered, begun, turned as moved, reads};

use crate::answer::{Coin, Reading, Side, Turned};
use crate::fault::BankFault;

// A bank of tallies. A tally counts receipts; agents put receipts out by arriving and take them back by departing,
// one access to a shared word a turn.
//
// - A tally reads held while a receipt is out or an agent is departing there, and zero once none is out and no agent
//   has an errand there.
// - Each turn lowers its agent's lone number, so an agent that moves alone ends its errand.
// - A refused call leaves the bank as it was.
pub trait Bank {
    // No lone number is above it; it is at most 2,000.
    const LONE_LIMIT: u16;

    // The same constant, for clauses.
    ghost LONE_LIMIT: { ℕ };

    // What the bank means.
    ghost means: { Self → Meaning };

    // What this bank does, exactly: the bank before, the call, its answer, the bank after.
    ghost does: { Self → Request → Reply → Self → Type 0 };

    // The limit on lone numbers.
    fn limit(&self) -> u16
        ensures { result ≡ (means self.now).limit };

    // Opens the next tally, with one receipt out at its first place. Answers the tally and the place.
    fn open(&mut self) -> Result<(u16, u16), BankFault>
        ensures exact { does self.old open_one (answered result) self.new }
        ensures shows { OpenOf means self.old result self.new };

    // Begins an arrival of the agent at a place of the tally. Tally and place are two arguments, since callers keep them
    // apart.
    fn arrive(
        &mut self,
        agent: u16,
        tally: u16,
        place: u16,
        side: Side,
        coin: Coin,
    ) -> Result<(), BankFault>
        ensures exact { does self.old (arriving agent tally place side coin) (begun result) self.new }
        ensures shows { ArriveOf means self.old agent tally place result self.new };

    // Takes a receipt from a place of the tally, and begins a departure of the agent.
    fn depart(&mut self, agent: u16, tally: u16, place: u16) -> Result<(), BankFault>
        ensures exact { does self.old (departing agent tally place) (begun result) self.new }
        ensures shows { DepartOf means self.old agent tally place result self.new };

    // One turn of the agent's errand: one access.
    fn turn(&mut self, agent: u16) -> Result<Turned, BankFault>
        ensures exact { does self.old (turning agent) (moved result) self.new }
        ensures shows { TurnOf means self.old agent result self.new };

    // What a tally reads.
    fn reading(&self, tally: u16) -> Result<Reading, BankFault>
        ensures exact { does self.now (asking tally) (reads result) self.now }
        ensures shows { ReadOf (means self.now) tally result }
        ensures lawful { Lawful (means self.now) };
}

// A bank whose limit on lone numbers is its constant in every state. It stands apart from `Bank`, which lets the limit
// depend on the state.
pub trait Limited: Bank {
    ghost limited: { (b : Self) → (Self.means b).limit ≡ Self.LONE_LIMIT };
}
