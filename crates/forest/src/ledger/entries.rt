ghost use Rattle.std.specs.Prelude.{◌≡◌, ◌<◌, ◌≤◌, slice_index};
ghost use Rattle.forest.specs.Ledgers.{found, first_ledger, may_open, free, shut, roomy, may_turn, opens, sends, takes, moves};

use crate::errand::Errand;
use crate::ledger::Ledger;
use banks::BankFault;

// So many receipts out and arriving agents take no other arrival.
const CROWD: u16 = 2048;

// The bounds on agents and tallies are clauses: a type for a checked number would be unwrapped at each index.
//
// What is tested before a call, apart from what it then does: a refusal touches nothing.
impl Ledger {
    pub(crate) fn may_open(&self, tallies: u16) -> Result<(), BankFault>
        ensures { result ≡ may_open tallies self.now }
    {
        if self.opened < tallies {
            Ok(())
        } else {
            Err(BankFault::Full)
        }
    }

    // The errand of an agent, if there is one of that number.
    fn agent(&self, agent: u16) -> Result<Errand, BankFault>
        ensures { result ≡ found self.now agent }
    {
        self.errands
            .get(agent as usize)
            .copied()
            .ok_or(BankFault::NoAgent)
    }

    // An agent that may begin an errand.
    pub(crate) fn free(&self, agent: u16) -> Result<(), BankFault>
        ensures { result ≡ free self.now agent }
    {
        if self.agent(agent)?.is_idle() {
            Ok(())
        } else {
            Err(BankFault::HasErrand)
        }
    }

    // A tally that is open.
    pub(crate) fn shut(&self, tally: u16) -> Result<(), BankFault>
        ensures { result ≡ shut self.now tally }
    {
        if tally < self.opened {
            Ok(())
        } else {
            Err(BankFault::NotOpen)
        }
    }

    // A tally that takes one more arrival.
    pub(crate) fn roomy(&self, tally: u16) -> Result<(), BankFault>
        requires { tally < 256 }
        ensures { result ≡ roomy self.now tally }
    {
        if self.load[tally as usize] < CROWD {
            Ok(())
        } else {
            Err(BankFault::Crowded)
        }
    }

    pub(crate) fn may_turn(&self, agent: u16) -> Result<(), BankFault>
        ensures { result ≡ may_turn self.now agent }
    {
        if self.agent(agent)?.is_idle() {
            Err(BankFault::Idle)
        } else {
            Ok(())
        }
    }
}

// What the calls write.
impl Ledger {
    // No tally is open, and all agents are idle.
    pub(crate) fn new() -> Ledger
        ensures { result ≡ first_ledger }
    {
        Ledger {
            errands: [Errand::idle(); 16],
            load: [0; 256],
            opened: 0,
        }
    }

    // The next tally is open, with one receipt out.
    pub(crate) fn open(&mut self)
        requires { self.old.opened < 256 }
        ensures { self.new ≡ opens self.old }
    {
        self.load[self.opened as usize] = 1;
        self.opened += 1;
    }

    // An arrival begins.
    pub(crate) fn send(&mut self, agent: u16, tally: u16, errand: Errand)
        requires agent { agent < 16 }
        requires tally { tally < 256 }
        requires room { slice_index self.old.load tally < 65535 }
        ensures { self.new ≡ sends self.old agent tally errand }
    {
        self.errands[agent as usize] = errand;
        self.load[tally as usize] += 1;
    }

    // A departure begins: its receipt counts no more.
    pub(crate) fn take(&mut self, agent: u16, tally: u16, errand: Errand)
        requires agent { agent < 16 }
        requires tally { tally < 256 }
        ensures { self.new ≡ takes self.old agent tally errand }
    {
        self.errands[agent as usize] = errand;
        self.load[tally as usize] = self.load[tally as usize].saturating_sub(1);
    }

    // An errand goes on.
    pub(crate) fn put(&mut self, agent: u16, errand: Errand)
        requires { agent < 16 }
        ensures { self.new ≡ moves self.old agent errand }
    {
        self.errands[agent as usize] = errand;
    }
}
