// Disks that fail under a whole world: scripts of requests (virtio 1.2, section 5.2.6), and how each request ends.
use crate::expect::expect;
use iom_runner::run;
use iom_virtio_blk::MemoryDisk;
use std::alloc::{AllocError, Global};
use std::test::Fail;

/// A block device whose queue of four is in frame 4. Its only chain is a header with data behind it at `0x1000`, and what the
/// device writes at `0x1800`: pages 0 and 1 are frames 4 and 5.
static PLUGGED: &str = "\
    world 64 1\n\
    device 000001 blk 0\n\
    attach 000001 first\n\
    grant 000001 0 4 rw\n\
    grant 000001 1 5 rw\n\
    poke 0x4000 00100000000000001002000001000100\n\
    poke 0x4010 00180000000000000100000002000000\n\
    poke 0x5000 01000000000000000000000000000000ab\n\
    queue 000001 4 0x0 0x100 0x200\n";

/// What the run says of a script with one disk, whose call of this number fails: how requests ended and what was peeked at,
/// with a comma behind each.
fn reply(alloc: Global, script: &str, fails_at: u64) -> Result<String, Fail> {
    let mut disks = Vec::new(alloc);
    disks.push(MemoryDisk::new(alloc, 0, 64, Some(fails_at))?)?;
    let mut lines = Vec::new(alloc);
    let mut said = String::new(alloc);
    if run(alloc, &mut script.as_bytes(), &mut lines, disks, false).is_err() {
        return Ok(said);
    }
    let text = String::from_utf8(lines)?;
    for line in text.lines() {
        if line.starts_with("finished") || line.starts_with("bytes") {
            said.push_str(line)?;
            said.push(',')?;
        }
    }
    Ok(said)
}

/// The entry of the avail ring with this number, from 1, is there (it names descriptor 0). The device makes so many accesses,
/// and then ends its request; and the processor looks at the status.
fn request(
    alloc: Global,
    script: &mut String,
    number: usize,
    accesses: usize,
) -> Result<(), AllocError> {
    let offered = format!(in alloc; "poke 0x4102 {number:02x}00\n")?;
    script.push_str(&offered)?;
    for _ in 0..accesses {
        script.push_str("step 000001\ncommit 000001\n")?;
    }
    script.push_str("step 000001\npeek 0x5800 1\n")
}

/// A write of two sectors, of which the second isn't asked for once the first failed.
#[test]
fn a_write_ends_at_the_sector_that_fails(rt: HostRuntime) -> Result<(), Fail> {
    let alloc = rt.alloc();
    for (fails_at, accesses, wanted) in [
        (1, 9, "finished 0 1,bytes 01,"),
        (2, 10, "finished 0 1,bytes 01,"),
        (3, 10, "finished 0 1,bytes 00,"),
    ] {
        let mut script = String::from_str(alloc, PLUGGED)?;
        script.push_str("poke 0x4008 10040000\n")?;
        request(alloc, &mut script, 1, accesses)?;
        expect(&rt, reply(alloc, &script, fails_at)?.as_str() == wanted);
    }
    Ok(())
}

/// A sector is written, and read again behind a flush that fails: it has what was written.
#[test]
fn a_flush_that_fails_leaves_the_disk(rt: HostRuntime) -> Result<(), Fail> {
    let alloc = rt.alloc();
    let mut script = String::from_str(alloc, PLUGGED)?;
    request(alloc, &mut script, 1, 9)?;
    script.push_str("poke 0x4008 10000000\npoke 0x5000 04\n")?;
    request(alloc, &mut script, 2, 8)?;
    script.push_str("poke 0x4018 01020000\npoke 0x5000 00\n")?;
    request(alloc, &mut script, 3, 9)?;
    script.push_str("peek 0x5a00 1\n")?;
    let flushed = "finished 0 1,bytes 00,finished 0 1,bytes 00,finished 0 513,bytes ab,bytes 00,";
    let failed = "finished 0 1,bytes 00,finished 0 1,bytes 01,finished 0 513,bytes ab,bytes 00,";
    expect(&rt, reply(alloc, &script, 4)?.as_str() == flushed);
    expect(&rt, reply(alloc, &script, 2)?.as_str() == failed);
    Ok(())
}

/// Of eight writes the one fails whose call of the disk does.
#[test]
fn one_of_eight_requests_fails(rt: HostRuntime) -> Result<(), Fail> {
    let alloc = rt.alloc();
    let mut script = String::from_str(alloc, PLUGGED)?;
    for number in 1..9usize {
        request(alloc, &mut script, number, 9)?;
    }
    for fails_at in 1..9u64 {
        let mut wanted = String::new(alloc);
        for number in 1..9u64 {
            wanted.push_str("finished 0 1,bytes 0")?;
            wanted.push_str(if number == fails_at { "1," } else { "0," })?;
        }
        expect(&rt, reply(alloc, &script, fails_at)? == wanted);
    }
    Ok(())
}
