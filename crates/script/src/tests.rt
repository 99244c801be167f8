// The faults of a script, those that the script itself finds and some that come up from below.
use crate::script::script;
use std::alloc::Global;
use std::process::Abort;
use std::test::Fail;

fn prints(rt: &impl Abort, heap: Global, input: &str, expected: &str) -> Result<(), Fail> {
    let out = script(heap, input.as_bytes())?;
    assert_eq!(rt; out.as_str(), expected, "{}", input);
    Ok(())
}

#[test]
fn first_lines(rt: HostRuntime) -> Result<(), Fail> {
    let heap = rt.alloc();
    prints(&rt, heap, "b 0", "ok\n")?;
    prints(&rt, heap, "b 0\n", "ok\n")?;
    prints(&rt, heap, "b 00000\n", "ok\n")?;
    for input in [
        "", "\n", "b", "b 1", "b 2", "b 0 ", "b  0", "b 000000", "b 0\r\n", "\nb 0", "m\nb 0",
    ] {
        prints(&rt, heap, input, "no 1 S 21\n")?;
    }
    Ok(())
}

#[test]
fn unknown_lines(rt: HostRuntime) -> Result<(), Fail> {
    for input in [
        "b 0\nx",
        "b 0\n\n",
        "b 0\nb 0",
        "b 0\nc 1",
        "b 0\nM",
        "b 0\n m",
        "b 0\n\r\n",
    ] {
        prints(&rt, rt.alloc(), input, "ok\nno 2 S 21\n")?;
    }
    Ok(())
}

#[test]
fn malformed_lines(rt: HostRuntime) -> Result<(), Fail> {
    for input in [
        "b 0\nm\r",
        "b 0\nm ",
        "b 0\nm 1",
        "b 0\nk",
        "b 0\nk  1",
        "b 0\nk 1 ",
        "b 0\nk 65536",
        "b 0\nk 000001",
        "b 0\nk 1 2",
        "b 0\nk1",
        "b 0\ng 1",
        "b 0\ng 1 2 3",
        "b 0\nt x",
    ] {
        prints(&rt, rt.alloc(), input, "ok\nno 2 S 22\n")?;
    }
    Ok(())
}

#[test]
fn every_line_counts(rt: HostRuntime) -> Result<(), Fail> {
    let heap = rt.alloc();
    prints(
        &rt,
        heap,
        "b 0\n\nk\nx\n\n",
        "ok\nno 2 S 21\nno 3 S 22\nno 4 S 21\nno 5 S 21\n",
    )
}

#[test]
fn long_inputs(rt: HostRuntime) -> Result<(), Fail> {
    let input = [b'b'; 65537];
    let most = script(rt.alloc(), &input[0..65536])?;
    assert_eq!(rt; most.as_str(), "no 1 S 21\n");
    let more = script(rt.alloc(), &input)?;
    assert_eq!(rt; more.as_str(), "no 0 S 23\n");
    Ok(())
}

#[test]
fn refused_below(rt: HostRuntime) -> Result<(), Fail> {
    let heap = rt.alloc();
    prints(&rt, heap, "b 0\nt 16", "ok\nno 2 E 1\n")?;
    prints(&rt, heap, "b 0\ng 65535 0", "ok\nno 2 E 1\n")?;
    prints(&rt, heap, "b 0\nt 15", "ok\nno 2 E 3\n")?;
    prints(&rt, heap, "b 0\nk 65535", "ok\nno 2 E 4\n")?;
    prints(&rt, heap, "b 0\ng 15 65535", "ok\nno 2 E 6\n")
}

#[test]
fn one_task(rt: HostRuntime) -> Result<(), Fail> {
    prints(
        &rt,
        rt.alloc(),
        "b 0\nm\nk 1\ng 0 1\nt 0\nt 0\nt 0\nk 0\n",
        "ok\nok 0 1\nok\nok\ngoing\ngoing\nready 0\nno 8 E 5\n",
    )
}
