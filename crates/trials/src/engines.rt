use banks::BankFault;
use engine::{Answer, Call, Engine, EngineFault, Moved, run};
use forest::Flat;
use std::test::Fail;

#[test]
fn from_make_to_ready(rt: HostRuntime) -> Result<(), Fail> {
    let mut engine = Engine::new(Flat::new());
    assert_eq!(rt; engine.make(), Ok((0, 1)));
    assert_eq!(rt; engine.take(0), Err(EngineFault::NotReady));
    engine.take(1)?;
    engine.signal(5, 1)?;
    assert_eq!(rt; engine.turn(5), Ok(Moved::Going));
    assert_eq!(rt; engine.turn(5), Ok(Moved::Going));
    assert_eq!(rt; engine.turn(5), Ok(Moved::Ready(0)));
    assert_eq!(rt; engine.turn(5), Err(EngineFault::NoErrand));
    assert_eq!(rt; engine.take(0), Err(EngineFault::NoFinish));
    assert_eq!(rt; engine.take(1), Err(EngineFault::NotReady));
    Ok(())
}

#[test]
fn refusals_in_order(rt: HostRuntime) -> Result<(), Fail> {
    let mut engine = Engine::new(Flat::new());
    assert_eq!(rt; engine.turn(16), Err(EngineFault::NoAgent));
    assert_eq!(rt; engine.signal(16, 0), Err(EngineFault::NoAgent));
    assert_eq!(rt; engine.signal(0, 1024), Err(EngineFault::NotInHand));
    assert_eq!(rt; engine.take(65535), Err(EngineFault::NotReady));
    engine.make()?;
    engine.take(1)?;
    engine.signal(0, 1)?;
    assert_eq!(rt; engine.signal(0, 1), Err(EngineFault::HasErrand));
    assert_eq!(rt; engine.signal(1, 1), Err(EngineFault::NotInHand));
    Ok(())
}

#[test]
fn full_bank(rt: HostRuntime) {
    let mut engine = Engine::new(Flat::new());
    for round in 0..256u16 {
        assert_eq!(rt; engine.make(), Ok((2 * round, 2 * round + 1)));
    }
    let fault = EngineFault::Bank(BankFault::Full);
    assert_eq!(rt; engine.make(), Err(fault));
    assert_eq!(rt; fault.layer(), "B");
    assert_eq!(rt; fault.number(), 11);
    assert_eq!(rt; EngineFault::NoNumbers.layer(), "E");
    assert_eq!(rt; EngineFault::NoNumbers.number(), 7);
}

#[test]
fn a_run(rt: HostRuntime) -> Result<(), Fail> {
    let calls = [
        Call::Make,
        Call::Take(1),
        Call::Signal { agent: 2, task: 1 },
        Call::Turn(3),
        Call::Turn(2),
        Call::Turn(2),
        Call::Turn(2),
    ];
    let answers = run(rt.alloc(), Flat::new(), &calls)?;
    let expected = [
        Ok(Answer::Made { finish: 0, root: 1 }),
        Ok(Answer::Taken),
        Ok(Answer::Signalling),
        Err(EngineFault::NoErrand),
        Ok(Answer::Moved(Moved::Going)),
        Ok(Answer::Moved(Moved::Going)),
        Ok(Answer::Moved(Moved::Ready(0))),
    ];
    assert_eq!(rt; answers.as_slice(), expected.as_slice());
    Ok(())
}
