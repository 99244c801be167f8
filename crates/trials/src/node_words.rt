use std::process::Abort;
use std::test::Fail;
use words::{Kind, Word, WordFault};

fn spells(rt: &impl Abort, bits: u32, kind: Kind, count: u16, version: u16) -> Result<(), Fail> {
    let word = Word::try_from(bits)?;
    assert_eq!(rt; word.kind(), kind);
    assert_eq!(rt; (word.count(), word.version()), (count, version));
    assert_eq!(rt; u32::from(Word::new(kind, count, version)?), bits);
    Ok(())
}

#[test]
fn packing(rt: HostRuntime) -> Result<(), Fail> {
    spells(&rt, 0x8001_0000, Kind::Counted, 1, 0)?;
    spells(&rt, 0xBFFF_FFFF, Kind::Counted, 16383, 65535)?;
    spells(&rt, 0x4000_0001, Kind::Half, 0, 1)?;
    for bits in [0x0001_0000, 0x8000_0000, 0xC000_0000] {
        let read = Word::try_from(bits);
        assert_eq!(rt; read.map_err(WordFault::number), Err(19));
    }
    Ok(())
}

#[test]
fn kinds(rt: HostRuntime) {
    assert_eq!(rt; Kind::try_from(0), Ok(Kind::Empty));
    assert_eq!(rt; Kind::try_from(1), Ok(Kind::Half));
    assert_eq!(rt; Kind::try_from(2), Ok(Kind::Counted));
    assert_eq!(rt; Kind::try_from(3), Err(WordFault::Unlawful));
}

#[test]
fn steps(rt: HostRuntime) -> Result<(), Fail> {
    let opened = Word::try_from(0x0000_FFFF)?.opened(false);
    assert_eq!(rt; u32::from(opened), 0x4000_0000);
    let settled = Word::try_from(0x4000_0000)?.settled();
    assert_eq!(rt; u32::from(settled), 0x8001_0000);
    let emptied = Word::try_from(0x8001_0005)?.lowered();
    assert_eq!(rt; u32::from(emptied), 0x0000_0005);
    let lowered = Word::try_from(0x8002_0005)?.lowered();
    assert_eq!(rt; u32::from(lowered), 0x8001_0005);
    let at_root = Word::try_from(0x0000_FFFF)?.opened(true);
    assert_eq!(rt; u32::from(at_root), 0x8001_0000);
    let raised = Word::try_from(0x8001_0005)?.raised();
    assert_eq!(rt; u32::from(raised), 0x8002_0005);
    let stopped = Word::try_from(0xBFFF_0005)?.raised();
    assert_eq!(rt; u32::from(stopped), 0xBFFF_0005);
    Ok(())
}

#[test]
fn unlawful_parts(rt: HostRuntime) {
    for (kind, count) in [
        (Kind::Empty, 1),
        (Kind::Half, 1),
        (Kind::Counted, 0),
        (Kind::Counted, 16384),
    ] {
        assert_eq!(rt; Word::new(kind, count, 0), Err(WordFault::Unlawful));
    }
}
