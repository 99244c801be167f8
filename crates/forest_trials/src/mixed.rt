use crate::mixed::Reply::*;
use crate::mixed::Step::*;
use banks::Coin::{Heads, Tails};
use banks::Side::{Left, Right};
use banks::{Bank, BankFault, Coin, Reading, Side, Turned};
use forest::{Fixed, Growing, Node};
use std::process::Abort;

// A call, with its numbers in their order.
#[derive(Clone, Copy)]
enum Step {
    Open,
    Arrive(u16, u16, u16, Side, Coin),
    Depart(u16, u16, u16),
    Turn(u16),
    Reads(u16),
}

// What an accepted call answers.
#[derive(Clone, Copy, PartialEq, Debug)]
enum Reply {
    Opened(u16, u16),
    Begun,
    Going,
    Arrived(u16, u16, u16),
    Departed(bool),
    Held,
    Zero,
}

// A call, its answer or the number of its refusal, and the node and word that it writes, if any.
type Row = (Step, Result<Reply, u8>, Option<(u16, u32)>);

fn asked<B: Bank>(bank: &mut B, step: Step) -> Result<Reply, BankFault> {
    Ok(match step {
        Open => {
            let (tally, place) = bank.open()?;
            Opened(tally, place)
        }
        Arrive(agent, tally, place, side, coin) => {
            bank.arrive(agent, tally, place, side, coin)?;
            Begun
        }
        Depart(agent, tally, place) => {
            bank.depart(agent, tally, place)?;
            Begun
        }
        Turn(agent) => match bank.turn(agent)? {
            Turned::Going => Going,
            Turned::Arrived { place, left, right } => Arrived(place, left, right),
            Turned::Departed { drained } => Departed(drained),
        },
        Reads(tally) => match bank.reading(tally)? {
            Reading::Held => Held,
            Reading::Zero => Zero,
        },
    })
}

// A bank whose words can be looked at. It has two impls that read alike, since the trait that both banks have in common
// is private to their crate.
trait Watched: Bank {
    fn word(&self, node: u16) -> Option<u32>;
}

impl Watched for Fixed {
    fn word(&self, node: u16) -> Option<u32> {
        Some(u32::from(self.node(node)?.word()))
    }
}

impl Watched for Growing<'_> {
    fn word(&self, node: u16) -> Option<u32> {
        Some(u32::from(self.node(node)?.word()))
    }
}

// Plays the rows on a new bank, and compares the answer and the words of all watched nodes after each.
fn plays(rt: &impl Abort, bank: &mut impl Watched, nodes: [u16; 8], rows: &[Row]) {
    let mut watched = nodes.map(|node| (node, 0));
    for (step, reply, written) in rows {
        let answer = asked(bank, *step).map_err(BankFault::number);
        assert_eq!(rt; answer, *reply);
        for (node, word) in &mut watched {
            if let Some((changed, after)) = *written
                && changed == *node
            {
                *word = after;
            }
            assert_eq!(rt; bank.word(*node), Some(*word));
        }
    }
}

#[test]
fn growing_run(rt: HostRuntime) {
    let mut nodes = [Node::blank(); 300];
    plays(&rt, &mut Growing::new(&mut nodes), GROWING_NODES, &GROWING);
}

#[test]
fn fixed_run(rt: HostRuntime) {
    plays(&rt, &mut Fixed::new(), FIXED_NODES, &FIXED);
}

// The rows below are printed by reference/mixed_run.py, which plays the runs from the rules alone.

const GROWING_NODES: [u16; 8] = [0, 1, 256, 257, 258, 259, 260, 261];

const GROWING: [Row; 71] = [
    (Open, Ok(Opened(0, 0)), Some((0, 0x8001_0000))),
    (Open, Ok(Opened(1, 1)), Some((1, 0x8001_0000))),
    // Agent 0 opens node 256. Agent 8 finds it half and settles it first. Agent 1 takes the first receipt meanwhile.
    (Arrive(0, 0, 0, Left, Heads), Ok(Begun), None),
    (Turn(0), Ok(Going), None),
    (Turn(0), Ok(Going), None),
    (Turn(0), Ok(Going), None),
    (Turn(0), Ok(Going), Some((256, 0x4000_0001))),
    (Arrive(8, 0, 0, Left, Tails), Ok(Begun), None),
    (Turn(8), Ok(Going), None),
    (Turn(8), Ok(Going), None),
    (Turn(8), Ok(Going), None),
    (Turn(8), Ok(Going), None),
    (Turn(8), Ok(Going), Some((0, 0x8002_0000))),
    (Turn(0), Ok(Going), None),
    (Turn(8), Ok(Going), Some((256, 0x8001_0001))),
    (Depart(1, 0, 0), Ok(Begun), None),
    // Agent 0 loses its settle, and then a lower at the root to agent 1.
    (Turn(0), Ok(Going), Some((0, 0x8003_0000))),
    (Turn(1), Ok(Going), None),
    (Turn(8), Ok(Going), None),
    (Turn(0), Ok(Going), None),
    (Turn(0), Ok(Going), None),
    (Turn(1), Ok(Departed(false)), Some((0, 0x8002_0000))),
    (
        Turn(8),
        Ok(Arrived(256, 256, 257)),
        Some((256, 0x8002_0001)),
    ),
    (Turn(0), Ok(Going), None),
    (Turn(0), Ok(Going), None),
    (Turn(0), Ok(Arrived(256, 256, 257)), Some((0, 0x8001_0000))),
    // Agent 2 opens node 259 and agent 3 the node above it. Each helps the other: 2 settles 257 and 259, both before 3.
    (Arrive(2, 0, 257, Right, Heads), Ok(Begun), None),
    (Turn(2), Ok(Going), None),
    (Turn(2), Ok(Going), None),
    (Arrive(3, 0, 257, Right, Heads), Ok(Begun), None),
    (Turn(3), Ok(Going), None),
    (Turn(3), Ok(Going), None),
    (Turn(2), Ok(Going), None),
    (Turn(3), Ok(Going), None),
    (Turn(2), Ok(Going), Some((259, 0x4000_0001))),
    (Turn(3), Ok(Going), None),
    (Turn(3), Ok(Going), None),
    (Turn(3), Ok(Going), None),
    (Turn(3), Ok(Going), Some((257, 0x4000_0001))),
    (Turn(2), Ok(Going), None),
    (Turn(3), Ok(Going), None),
    (Turn(2), Ok(Going), None),
    (Turn(2), Ok(Going), Some((0, 0x8002_0000))),
    (Turn(3), Ok(Going), None),
    (Turn(2), Ok(Going), Some((257, 0x8001_0001))),
    (Turn(3), Ok(Going), None),
    (Turn(3), Ok(Going), Some((0, 0x8003_0000))),
    (Turn(2), Ok(Going), None),
    (Turn(3), Ok(Going), None),
    (Turn(3), Ok(Going), None),
    (Turn(2), Ok(Going), Some((257, 0x8002_0001))),
    (Turn(3), Ok(Going), Some((0, 0x8002_0000))),
    (
        Turn(2),
        Ok(Arrived(259, 258, 259)),
        Some((259, 0x8001_0001)),
    ),
    (Turn(3), Ok(Going), None),
    (Turn(3), Ok(Going), None),
    (Turn(3), Ok(Going), Some((257, 0x8001_0001))),
    (Turn(3), Ok(Going), None),
    (
        Turn(3),
        Ok(Arrived(259, 258, 259)),
        Some((259, 0x8002_0001)),
    ),
    // Node 256 is no place of tally 1.
    (Arrive(4, 1, 256, Left, Tails), Err(16), None),
    // Agent 0 loses a lower to agent 8, empties node 256 and goes on to the root.
    (Depart(0, 0, 256), Ok(Begun), None),
    (Depart(8, 0, 256), Ok(Begun), None),
    (Turn(0), Ok(Going), None),
    (Turn(8), Ok(Going), None),
    (Turn(8), Ok(Departed(false)), Some((256, 0x8001_0001))),
    (Turn(0), Ok(Going), None),
    (Turn(0), Ok(Going), None),
    (Turn(0), Ok(Going), Some((256, 0x0000_0001))),
    (Turn(0), Ok(Going), None),
    (Turn(0), Ok(Departed(false)), Some((0, 0x8001_0000))),
    (Reads(0), Ok(Held), None),
    (Depart(8, 0, 256), Err(18), None),
];

const FIXED_NODES: [u16; 8] = [0, 1, 2, 3, 4, 7, 8, 22];

const FIXED: [Row; 31] = [
    (Open, Ok(Opened(0, 0)), Some((0, 0x8001_0000))),
    // Agents 0 and 8 share leaf 7. Agent 0 opens it and node 3, agent 8 node 1. Agent 8 settles all three.
    (Arrive(0, 0, 0, Left, Heads), Ok(Begun), None),
    (Arrive(8, 0, 0, Right, Tails), Ok(Begun), None),
    (Turn(0), Ok(Going), None),
    (Turn(8), Ok(Going), None),
    (Turn(0), Ok(Going), Some((7, 0x4000_0001))),
    (Turn(8), Ok(Going), None),
    (Turn(0), Ok(Going), None),
    (Turn(0), Ok(Going), Some((3, 0x4000_0001))),
    (Turn(8), Ok(Going), None),
    (Turn(8), Ok(Going), None),
    (Turn(8), Ok(Going), None),
    (Turn(8), Ok(Going), Some((1, 0x4000_0001))),
    (Turn(8), Ok(Going), None),
    (Turn(8), Ok(Going), Some((0, 0x8002_0000))),
    (Turn(8), Ok(Going), Some((1, 0x8001_0001))),
    (Turn(8), Ok(Going), Some((3, 0x8001_0001))),
    (Turn(8), Ok(Going), None),
    (Turn(8), Ok(Going), Some((3, 0x8002_0001))),
    (Turn(8), Ok(Going), Some((7, 0x8001_0001))),
    // Agent 0 has lost its settles at nodes 3 and 7, and gives back its arrivals above them.
    (Turn(0), Ok(Going), None),
    (Turn(8), Ok(Going), None),
    (Turn(0), Ok(Going), Some((1, 0x8002_0001))),
    (Turn(8), Ok(Arrived(7, 0, 0)), Some((7, 0x8002_0001))),
    (Turn(0), Ok(Going), None),
    (Turn(0), Ok(Going), None),
    (Turn(0), Ok(Going), Some((1, 0x8001_0001))),
    (Turn(0), Ok(Going), None),
    (Turn(0), Ok(Going), None),
    (Turn(0), Ok(Arrived(7, 0, 0)), Some((3, 0x8001_0001))),
    (Depart(8, 0, 3), Err(18), None),
];
