use crate::turns::{comes, goes, leaves};
use banks::{Bank, BankFault, Coin, Side};
use forest::{Fixed, Flat, Growing, Node};
use std::process::Abort;
use std::test::Fail;

// Agent 0 at a place of tally 0, heads and to the left, where the arrival comes to no empty node: two turns of
// growth and two at the node.
fn rises(
    rt: &impl Abort,
    bank: &mut Growing<'_>,
    place: u16,
    places: (u16, u16, u16),
) -> Result<(), Fail> {
    bank.arrive(0, 0, place, Side::Left, Coin::Heads)?;
    comes(rt, bank, 0, 4, places);
    Ok(())
}

// The same where the node is empty and its parent counted: two turns of growth, two at the node, two at the parent
// and the settle.
fn sprouts(
    rt: &impl Abort,
    bank: &mut Growing<'_>,
    place: u16,
    places: (u16, u16, u16),
) -> Result<(), Fail> {
    bank.arrive(0, 0, place, Side::Left, Coin::Heads)?;
    comes(rt, bank, 0, 7, places);
    Ok(())
}

// The place is none of tally 0.
fn misses(rt: &impl Abort, bank: &mut Growing<'_>, place: u16) {
    assert_eq!(rt;
        bank.arrive(0, 0, place, Side::Left, Coin::Heads),
        Err(BankFault::NoPlace)
    );
}

fn shows(rt: &impl Abort, bank: &Growing<'_>, node: u16, word: u32) -> Result<(), Fail> {
    let node = bank.node(node).ok_or("no node")?;
    assert_eq!(rt; u32::from(node.word()), word);
    Ok(())
}

#[test]
fn limits(rt: HostRuntime) {
    assert_eq!(rt; Flat::new().limit(), 3);
    assert_eq!(rt; Fixed::new().limit(), 84);
    assert_eq!(rt; Growing::new(&mut []).limit(), 1700);
}

#[test]
fn no_nodes(rt: HostRuntime) {
    let mut bank = Growing::new(&mut []);
    assert_eq!(rt; bank.open(), Err(BankFault::Full));
    assert_eq!(rt; BankFault::Full.number(), 11);
    assert!(rt; bank.node(0).is_none());
}

#[test]
fn one_node(rt: HostRuntime) -> Result<(), Fail> {
    let mut nodes = [Node::blank(); 1];
    let mut bank = Growing::new(&mut nodes);
    assert_eq!(rt; bank.open(), Ok((0, 0)));
    assert_eq!(rt; bank.open(), Err(BankFault::Full));
    rises(&rt, &mut bank, 0, (0, 0, 0))?;
    shows(&rt, &bank, 0, 0x8002_0000)?;
    misses(&rt, &mut bank, 1);
    Ok(())
}

// No node is unused, so heads changes nothing.
#[test]
fn three_nodes(rt: HostRuntime) -> Result<(), Fail> {
    let mut nodes = [Node::blank(); 3];
    let mut bank = Growing::new(&mut nodes);
    for tally in 0..3 {
        assert_eq!(rt; bank.open(), Ok((tally, tally)));
    }
    assert_eq!(rt; bank.open(), Err(BankFault::Full));
    bank.arrive(5, 2, 2, Side::Right, Coin::Heads)?;
    comes(&rt, &mut bank, 5, 4, (2, 2, 2));
    shows(&rt, &bank, 2, 0x8002_0000)?;
    shows(&rt, &bank, 0, 0x8001_0000)?;
    misses(&rt, &mut bank, 2);
    Ok(())
}

// Five unused nodes: two pairs are linked, and the one left over never is.
#[test]
fn full_table(rt: HostRuntime) -> Result<(), Fail> {
    let mut nodes = [Node::blank(); 261];
    let mut bank = Growing::new(&mut nodes);
    bank.open()?;
    sprouts(&rt, &mut bank, 0, (256, 256, 257))?;
    sprouts(&rt, &mut bank, 256, (258, 258, 259))?;
    rises(&rt, &mut bank, 258, (258, 258, 258))?;
    misses(&rt, &mut bank, 260);
    shows(&rt, &bank, 256, 0x8002_0001)?;
    shows(&rt, &bank, 258, 0x8002_0001)?;
    shows(&rt, &bank, 259, 0)?;
    shows(&rt, &bank, 260, 0)
}

#[test]
fn tails_then_heads_twice(rt: HostRuntime) -> Result<(), Fail> {
    let mut nodes = [Node::blank(); 300];
    let mut bank = Growing::new(&mut nodes);
    bank.open()?;
    bank.arrive(0, 0, 0, Side::Left, Coin::Tails)?;
    comes(&rt, &mut bank, 0, 4, (0, 0, 0));
    misses(&rt, &mut bank, 256);
    sprouts(&rt, &mut bank, 0, (256, 256, 257))?;
    rises(&rt, &mut bank, 0, (256, 256, 257))?;
    misses(&rt, &mut bank, 258);
    bank.arrive(0, 0, 0, Side::Right, Coin::Tails)?;
    comes(&rt, &mut bank, 0, 7, (257, 256, 257));
    shows(&rt, &bank, 256, 0x8002_0001)?;
    shows(&rt, &bank, 257, 0x8001_0001)
}

#[test]
fn refusals(rt: HostRuntime) -> Result<(), Fail> {
    let mut nodes = [Node::blank(); 300];
    let mut bank = Growing::new(&mut nodes);
    assert_eq!(rt;
        bank.arrive(0, 0, 0, Side::Left, Coin::Heads),
        Err(BankFault::NotOpen)
    );
    assert_eq!(rt; bank.depart(0, 0, 0), Err(BankFault::NotOpen));
    bank.open()?;
    bank.open()?;
    sprouts(&rt, &mut bank, 0, (256, 256, 257))?;
    for place in [1, 2, 258, 299, 300, 65535] {
        misses(&rt, &mut bank, place);
    }
    assert_eq!(rt;
        bank.arrive(0, 1, 256, Side::Left, Coin::Heads),
        Err(BankFault::NoPlace)
    );
    for place in [1, 257, 258, 65535] {
        assert_eq!(rt; bank.depart(0, 0, place), Err(BankFault::NoReceipt));
    }
    assert_eq!(rt; bank.depart(0, 1, 256), Err(BankFault::NoReceipt));
    for (fault, number) in [
        (BankFault::NotOpen, 15),
        (BankFault::NoPlace, 16),
        (BankFault::Crowded, 17),
        (BankFault::NoReceipt, 18),
    ] {
        assert_eq!(rt; fault.number(), number);
    }
    Ok(())
}

// The first receipt, 2,046 more and an agent that is arriving come to 2,048.
#[test]
fn crowded(rt: HostRuntime) -> Result<(), Fail> {
    let mut nodes = [Node::blank(); 1];
    let mut bank = Growing::new(&mut nodes);
    bank.open()?;
    for _ in 0..2046 {
        rises(&rt, &mut bank, 0, (0, 0, 0))?;
    }
    bank.arrive(1, 0, 0, Side::Left, Coin::Heads)?;
    assert_eq!(rt;
        bank.arrive(2, 0, 0, Side::Left, Coin::Heads),
        Err(BankFault::Crowded)
    );
    shows(&rt, &bank, 0, 0x87FF_0000)?;
    comes(&rt, &mut bank, 1, 4, (0, 0, 0));
    assert_eq!(rt;
        bank.arrive(2, 0, 0, Side::Left, Coin::Heads),
        Err(BankFault::Crowded)
    );
    shows(&rt, &bank, 0, 0x8800_0000)?;
    bank.depart(1, 0, 0)?;
    assert_eq!(rt; bank.arrive(2, 0, 0, Side::Left, Coin::Heads), Ok(()));
    Ok(())
}

// Sixteen times down the left side. The node at depth 16 has no children; from there an arrival climbs all the way.
#[test]
fn depth(rt: HostRuntime) -> Result<(), Fail> {
    let mut nodes = [Node::blank(); 300];
    let mut bank = Growing::new(&mut nodes);
    bank.open()?;
    sprouts(&rt, &mut bank, 0, (256, 256, 257))?;
    for place in (256..286).step_by(2) {
        sprouts(&rt, &mut bank, place, (place + 2, place + 2, place + 3))?;
    }
    rises(&rt, &mut bank, 286, (286, 286, 286))?;
    misses(&rt, &mut bank, 288);
    shows(&rt, &bank, 286, 0x8002_0001)?;
    bank.depart(0, 0, 286)?;
    leaves(&rt, &mut bank, 0, 2, false);
    for step in 0..16u16 {
        bank.depart(0, 0, 286 - 2 * step)?;
        leaves(&rt, &mut bank, 0, 4, false);
    }
    shows(&rt, &bank, 0, 0x8001_0000)?;
    bank.arrive(0, 0, 286, Side::Left, Coin::Heads)?;
    comes(&rt, &mut bank, 0, 52, (286, 286, 286));
    shows(&rt, &bank, 0, 0x8002_0000)?;
    shows(&rt, &bank, 256, 0x8001_0002)?;
    shows(&rt, &bank, 286, 0x8001_0002)
}

// Agent 1 stands before its settle at version 65,535. Then the node closes and opens anew at version 0, so that the
// settle is lost, and agent 1 helps again.
#[test]
fn version_goes_round(rt: HostRuntime) -> Result<(), Fail> {
    let mut nodes = [Node::blank(); 258];
    let mut bank = Growing::new(&mut nodes);
    bank.open()?;
    for _ in 0..65534 {
        sprouts(&rt, &mut bank, 0, (256, 256, 257))?;
        bank.depart(0, 0, 256)?;
        leaves(&rt, &mut bank, 0, 4, false);
    }
    shows(&rt, &bank, 256, 0xFFFE)?;
    for agent in 0..3 {
        bank.arrive(agent, 0, 0, Side::Left, Coin::Tails)?;
    }
    goes(&rt, &mut bank, 0, 4);
    shows(&rt, &bank, 256, 0x4000_FFFF)?;
    goes(&rt, &mut bank, 1, 5);
    shows(&rt, &bank, 0, 0x8002_0000)?;
    comes(&rt, &mut bank, 0, 3, (256, 256, 257));
    shows(&rt, &bank, 256, 0x8001_FFFF)?;
    bank.depart(0, 0, 256)?;
    leaves(&rt, &mut bank, 0, 4, false);
    shows(&rt, &bank, 256, 0xFFFF)?;
    goes(&rt, &mut bank, 2, 4);
    shows(&rt, &bank, 256, 0x4000_0000)?;
    goes(&rt, &mut bank, 1, 1);
    shows(&rt, &bank, 256, 0x4000_0000)?;
    shows(&rt, &bank, 0, 0x8002_0000)?;
    goes(&rt, &mut bank, 1, 2);
    shows(&rt, &bank, 0, 0x8001_0000)?;
    goes(&rt, &mut bank, 1, 4);
    shows(&rt, &bank, 256, 0x8001_0000)?;
    comes(&rt, &mut bank, 1, 2, (256, 256, 257));
    comes(&rt, &mut bank, 2, 5, (256, 256, 257));
    shows(&rt, &bank, 256, 0x8002_0000)?;
    shows(&rt, &bank, 0, 0x8002_0000)
}
