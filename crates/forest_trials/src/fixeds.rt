use crate::turns::{comes, goes, leaves};
use banks::{Bank, BankFault, Coin, Reading, Side};
use forest::Fixed;
use std::process::Abort;
use std::test::Fail;

fn arrive(bank: &mut Fixed, agent: u16) -> Result<(), BankFault> {
    bank.arrive(agent, 0, 0, Side::Left, Coin::Heads)
}

// The word of a node and the receipts out there.
fn shows(rt: &impl Abort, bank: &Fixed, node: u16, word: u32, out: u16) -> Result<(), Fail> {
    let node = bank.node(node).ok_or("no node")?;
    assert_eq!(rt; (u32::from(node.word()), node.out()), (word, out));
    Ok(())
}

#[test]
fn leaf_by_agent(rt: HostRuntime) -> Result<(), Fail> {
    for (agent, leaf) in [(0, 7), (7, 14), (8, 7), (15, 14)] {
        let mut bank = Fixed::new();
        bank.open()?;
        shows(&rt, &bank, 0, 0x8001_0000, 1)?;
        arrive(&mut bank, agent)?;
        comes(&rt, &mut bank, agent, 11, (leaf, 0, 0));
        shows(&rt, &bank, leaf, 0x8001_0001, 1)?;
        shows(&rt, &bank, 0, 0x8002_0000, 1)?;
    }
    Ok(())
}

// The second tally has nodes 15 to 29. An arrival there leaves those of the first alone.
#[test]
fn second_tally(rt: HostRuntime) -> Result<(), Fail> {
    let mut bank = Fixed::new();
    assert_eq!(rt; bank.open(), Ok((0, 0)));
    assert_eq!(rt; bank.open(), Ok((1, 0)));
    shows(&rt, &bank, 15, 0x8001_0000, 1)?;
    bank.arrive(9, 1, 0, Side::Right, Coin::Tails)?;
    comes(&rt, &mut bank, 9, 11, (8, 0, 0));
    for (node, word) in [
        (15, 0x8002_0000),
        (16, 0x8001_0001),
        (18, 0x8001_0001),
        (22, 0),
    ] {
        shows(&rt, &bank, node, word, if node == 15 { 1 } else { 0 })?;
    }
    shows(&rt, &bank, 23, 0x8001_0001, 1)?;
    shows(&rt, &bank, 8, 0, 0)?;
    shows(&rt, &bank, 0, 0x8001_0000, 1)?;
    assert!(rt; bank.node(3840).is_none());
    Ok(())
}

#[test]
fn refusals(rt: HostRuntime) -> Result<(), Fail> {
    let mut bank = Fixed::new();
    assert_eq!(rt; arrive(&mut bank, 0), Err(BankFault::NotOpen));
    bank.open()?;
    assert_eq!(rt;
        bank.arrive(0, 0, 3, Side::Left, Coin::Heads),
        Err(BankFault::NoPlace)
    );
    assert_eq!(rt; BankFault::NoPlace.number(), 16);
    for place in [3, 7, 15, 65535] {
        assert_eq!(rt; bank.depart(0, 0, place), Err(BankFault::NoReceipt));
    }
    assert_eq!(rt; BankFault::NoReceipt.number(), 18);
    assert_eq!(rt; bank.turn(0), Err(BankFault::Idle));
    Ok(())
}

// The root's receipt goes first. The tally drains with the one at the leaf.
#[test]
fn drains_from_a_leaf(rt: HostRuntime) -> Result<(), Fail> {
    let mut bank = Fixed::new();
    bank.open()?;
    arrive(&mut bank, 0)?;
    comes(&rt, &mut bank, 0, 11, (7, 0, 0));
    bank.depart(1, 0, 0)?;
    leaves(&rt, &mut bank, 1, 2, false);
    assert_eq!(rt; bank.reading(0), Ok(Reading::Held));
    bank.depart(2, 0, 7)?;
    shows(&rt, &bank, 7, 0x8001_0001, 0)?;
    goes(&rt, &mut bank, 2, 7);
    assert_eq!(rt; bank.reading(0), Ok(Reading::Held));
    leaves(&rt, &mut bank, 2, 1, true);
    assert_eq!(rt; bank.reading(0), Ok(Reading::Zero));
    shows(&rt, &bank, 7, 1, 0)?;
    shows(&rt, &bank, 0, 0, 0)?;
    arrive(&mut bank, 3)?;
    comes(&rt, &mut bank, 3, 11, (10, 0, 0));
    shows(&rt, &bank, 0, 0x8001_0001, 0)?;
    shows(&rt, &bank, 1, 0x8001_0002, 0)?;
    shows(&rt, &bank, 10, 0x8001_0001, 1)
}

// Agent 0 opens the leaf. Agent 8 finds it half, arrives above, settles it and arrives there first.
#[test]
fn helper_overtakes_owner(rt: HostRuntime) -> Result<(), Fail> {
    let mut bank = Fixed::new();
    bank.open()?;
    arrive(&mut bank, 0)?;
    arrive(&mut bank, 8)?;
    goes(&rt, &mut bank, 0, 2);
    shows(&rt, &bank, 7, 0x4000_0001, 0)?;
    goes(&rt, &mut bank, 8, 9);
    shows(&rt, &bank, 3, 0x8001_0001, 0)?;
    shows(&rt, &bank, 7, 0x4000_0001, 0)?;
    goes(&rt, &mut bank, 8, 1);
    shows(&rt, &bank, 7, 0x8001_0001, 0)?;
    comes(&rt, &mut bank, 8, 2, (7, 0, 0));
    shows(&rt, &bank, 7, 0x8002_0001, 1)?;
    // The owner arrives at node 3 too, loses its settle and gives that arrival back.
    goes(&rt, &mut bank, 0, 2);
    shows(&rt, &bank, 3, 0x8002_0001, 0)?;
    comes(&rt, &mut bank, 0, 3, (7, 0, 0));
    shows(&rt, &bank, 3, 0x8001_0001, 0)?;
    shows(&rt, &bank, 7, 0x8002_0001, 2)?;
    shows(&rt, &bank, 0, 0x8002_0000, 1)
}

// Agent 0 stands before its settle. Agent 8 settles, arrives and departs again: the word is then what agent 0 would
// have written, yet its settle is lost, and its receipt is the one that is out.
#[test]
fn owner_loses_settle(rt: HostRuntime) -> Result<(), Fail> {
    let mut bank = Fixed::new();
    bank.open()?;
    arrive(&mut bank, 0)?;
    arrive(&mut bank, 8)?;
    goes(&rt, &mut bank, 0, 10);
    shows(&rt, &bank, 7, 0x4000_0001, 0)?;
    comes(&rt, &mut bank, 8, 6, (7, 0, 0));
    shows(&rt, &bank, 3, 0x8002_0001, 0)?;
    bank.depart(8, 0, 7)?;
    leaves(&rt, &mut bank, 8, 2, false);
    shows(&rt, &bank, 7, 0x8001_0001, 0)?;
    goes(&rt, &mut bank, 0, 2);
    shows(&rt, &bank, 3, 0x8002_0001, 0)?;
    comes(&rt, &mut bank, 0, 1, (7, 0, 0));
    shows(&rt, &bank, 3, 0x8001_0001, 0)?;
    shows(&rt, &bank, 7, 0x8001_0001, 1)?;
    bank.depart(5, 0, 7)?;
    leaves(&rt, &mut bank, 5, 8, false);
    bank.depart(5, 0, 0)?;
    leaves(&rt, &mut bank, 5, 2, true);
    for node in [0, 1, 3, 7] {
        shows(&rt, &bank, node, if node == 0 { 0 } else { 1 }, 0)?;
    }
    Ok(())
}
