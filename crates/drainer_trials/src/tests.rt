use super::*;
use buffered_io::Printer;
use crew::Crew;
use relay_ports::MemSink;
use std::alloc::{AllocError, Global};
use std::test::Fail;

// A drainer over a sink that takes so many bytes.
fn drainer(alloc: Global, stop_at: usize) -> Option<Drainer<MemSink>> {
    Some(Drainer {
        sink: MemSink::new(alloc, stop_at, Vec::new(alloc)).ok()?,
        printer: Printer::new(alloc).ok()?,
        text: Vec::new(alloc),
    })
}

// Tells each drainer what it prints next.
fn tell(drainers: &mut [Drainer<MemSink>], texts: &[&[u8]; 3]) -> Result<(), AllocError> {
    for i in 0..drainers.len().min(3) {
        drainers[i].text.extend_from_slice(texts[i])?;
    }
    Ok(())
}

// What each sink has.
fn have(drainers: &[Drainer<MemSink>], texts: &[&[u8]; 3]) -> bool {
    for i in 0..drainers.len().min(3) {
        if drainers[i].sink.bytes() != texts[i] {
            return false;
        }
    }
    drainers.len() == 3
}

// How many sinks failed.
fn failures(drainers: &[Drainer<MemSink>]) -> usize {
    drainers.iter().filter(|d| d.printer.failed()).count()
}

#[test]
fn drainers_print_in_kept_threads(rt: HostRuntime) -> Result<(), Fail> {
    let alloc = rt.alloc();
    let mut crew = Crew::new(alloc);
    crew.reserve(rt, alloc, 3)?;
    assert!(rt; crew.threads() >= 2);
    let mut drainers = Vec::new(alloc);
    for stop_at in [9, 9, 4] {
        drainers.push(drainer(alloc, stop_at).ok_or("no room")?)?;
    }
    tell(&mut drainers, &[b"one,", b"two,", b"three"])?;
    // None is left for this thread.
    crew.give(&mut drainers, 0);
    assert_eq!(rt; drainers.len(), 0);
    crew.finish(&rt, &mut drainers);
    assert!(rt; have(&drainers, &[b"one,", b"two,", b"thre"]));
    tell(&mut drainers, &[b"four", b"", b"five"])?;
    drain_all(&rt, &mut crew, &mut drainers);
    // The third sink failed, and isn't written to any more.
    assert!(rt; have(&drainers, &[b"one,four", b"two,", b"thre"]));
    assert_eq!(rt; failures(&drainers), 1);
    crew.end(&rt);
    Ok(())
}
