use banks::{Bank, BankFault, Coin, Reading, Side, Turned};
use forest::Flat;
use std::process::Abort;
use std::test::Fail;

// The one place of a flat tally is that of every receipt and of every later arrival.
const ARRIVED: Turned = Turned::Arrived {
    place: 0,
    left: 0,
    right: 0,
};

fn arrive(bank: &mut Flat, agent: u16) -> Result<(), BankFault> {
    bank.arrive(agent, 0, 0, Side::Left, Coin::Heads)
}

fn turns(rt: &impl Abort, bank: &mut Flat, agent: u16, answer: Turned) {
    assert_eq!(rt; bank.turn(agent), Ok(answer));
}

#[test]
fn opens_and_drains(rt: HostRuntime) -> Result<(), Fail> {
    let mut bank = Flat::new();
    assert_eq!(rt; bank.limit(), 3);
    assert_eq!(rt; bank.reading(0), Err(BankFault::NotOpen));
    assert_eq!(rt; bank.open(), Ok((0, 0)));
    assert_eq!(rt; bank.reading(0), Ok(Reading::Held));
    bank.depart(3, 0, 0)?;
    assert_eq!(rt; bank.reading(0), Ok(Reading::Held));
    turns(&rt, &mut bank, 3, Turned::Going);
    turns(&rt, &mut bank, 3, Turned::Departed { drained: true });
    assert_eq!(rt; bank.reading(0), Ok(Reading::Zero));
    assert_eq!(rt; bank.depart(3, 0, 0), Err(BankFault::NoReceipt));
    arrive(&mut bank, 4)?;
    turns(&rt, &mut bank, 4, Turned::Going);
    turns(&rt, &mut bank, 4, ARRIVED);
    assert_eq!(rt; bank.reading(0), Ok(Reading::Held));
    Ok(())
}

// Both agents read the same word; the second to write loses, reads anew and wins.
#[test]
fn lost_raise_and_lower(rt: HostRuntime) -> Result<(), Fail> {
    let mut bank = Flat::new();
    bank.open()?;
    arrive(&mut bank, 0)?;
    arrive(&mut bank, 15)?;
    turns(&rt, &mut bank, 0, Turned::Going);
    turns(&rt, &mut bank, 15, Turned::Going);
    turns(&rt, &mut bank, 15, ARRIVED);
    turns(&rt, &mut bank, 0, Turned::Going);
    turns(&rt, &mut bank, 0, Turned::Going);
    bank.depart(15, 0, 0)?;
    turns(&rt, &mut bank, 15, Turned::Going);
    turns(&rt, &mut bank, 0, ARRIVED);
    turns(&rt, &mut bank, 15, Turned::Going);
    turns(&rt, &mut bank, 15, Turned::Going);
    turns(&rt, &mut bank, 15, Turned::Departed { drained: false });
    assert_eq!(rt; bank.reading(0), Ok(Reading::Held));
    Ok(())
}

#[test]
fn refusals_in_order(rt: HostRuntime) -> Result<(), Fail> {
    let mut bank = Flat::new();
    assert_eq!(rt;
        bank.arrive(16, 0, 1, Side::Right, Coin::Tails),
        Err(BankFault::NoAgent)
    );
    assert_eq!(rt;
        bank.arrive(15, 0, 1, Side::Right, Coin::Tails),
        Err(BankFault::NotOpen)
    );
    assert_eq!(rt; bank.depart(65535, 0, 0), Err(BankFault::NoAgent));
    assert_eq!(rt; bank.depart(0, 0, 0), Err(BankFault::NotOpen));
    assert_eq!(rt; bank.turn(16), Err(BankFault::NoAgent));
    assert_eq!(rt; bank.turn(0), Err(BankFault::Idle));
    bank.open()?;
    assert_eq!(rt;
        bank.arrive(0, 0, 1, Side::Right, Coin::Tails),
        Err(BankFault::NoPlace)
    );
    assert_eq!(rt; bank.depart(0, 0, 1), Err(BankFault::NoReceipt));
    arrive(&mut bank, 0)?;
    assert_eq!(rt;
        bank.arrive(0, 1, 1, Side::Left, Coin::Heads),
        Err(BankFault::HasErrand)
    );
    assert_eq!(rt; bank.depart(0, 1, 1), Err(BankFault::HasErrand));
    Ok(())
}

#[test]
fn full_and_crowded(rt: HostRuntime) -> Result<(), Fail> {
    let mut bank = Flat::new();
    for tally in 0..256 {
        assert_eq!(rt; bank.open(), Ok((tally, 0)));
    }
    assert_eq!(rt; bank.open(), Err(BankFault::Full));
    for _ in 0..2047 {
        arrive(&mut bank, 7)?;
        turns(&rt, &mut bank, 7, Turned::Going);
        turns(&rt, &mut bank, 7, ARRIVED);
    }
    assert_eq!(rt; arrive(&mut bank, 7), Err(BankFault::Crowded));
    assert_eq!(rt; bank.arrive(7, 1, 0, Side::Left, Coin::Heads), Ok(()));
    for (fault, number) in [
        (BankFault::Full, 11),
        (BankFault::Crowded, 17),
        (BankFault::NoReceipt, 18),
    ] {
        assert_eq!(rt; fault.number(), number);
    }
    Ok(())
}
