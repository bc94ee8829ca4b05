use crate::os_host::OsHost;
use crate::spare_blocks::SpareBlocks;
use relay_ports::{Failed, Host, NotOpened, Sink, Source};
use std::io::ErrorKind;
use std::test::Fail;

#[test]
fn inputs_are_standard_input_and_files(rt: HostRuntime) -> Result<(), Fail> {
    let mut host = OsHost::new(rt, rt.alloc(), rt.stdin(), rt.stdout());
    let wanted = [
        ("no_such_file", Some(NotOpened::Failed)),
        ("/dev/null/none", Some(NotOpened::Failed)),
        ("", None),
        ("", Some(NotOpened::Failed)),
        ("/dev/null", None),
        ("/dev/null", None),
    ];
    for (name, refused) in wanted {
        assert_eq!(rt; host.open_in(name).err(), refused);
    }
    // A folder can be opened, and not read.
    let files = [
        ("/dev/zero", Ok(4)),
        ("/dev/null", Ok(0)),
        ("/", Err(ErrorKind::IsADirectory)),
    ];
    for (name, answer) in files {
        let mut input = host.open_in(name).ok().ok_or("not opened")?;
        let mut block = [b'#'; 4];
        assert_eq!(rt;
            input.read(&mut block),
            answer.map_err(|kind| Failed { kind })
        );
        let first = if answer == Ok(4) { 0 } else { b'#' };
        assert_eq!(rt; block[0], first);
        assert_eq!(rt; input.reading.counts.faults, u64::from(answer.is_err()));
    }
    Ok(())
}

#[test]
fn outputs_are_files_that_are_open_once(rt: HostRuntime) -> Result<(), Fail> {
    let mut host = OsHost::new(rt, rt.alloc(), rt.stdin(), rt.stdout());
    assert_eq!(rt; host.open_in("/dev/zero").err(), None);
    // One can't be made, and one is open as an input.
    for name in ["/dev/null/none", "/dev/zero"] {
        assert_eq!(rt; host.create_out(name).err(), Some(NotOpened::Failed));
    }
    let wanted = [
        ("/dev/null", Ok(4)),
        ("/dev/full", Err(ErrorKind::StorageFull)),
    ];
    for (name, taken) in wanted {
        let mut output = host.create_out(name).ok().ok_or("not made")?;
        assert_eq!(rt; host.create_out(name).err(), Some(NotOpened::Failed));
        assert_eq!(rt; output.write(b""), Ok(0));
        assert_eq!(rt;
            output.write(b"four"),
            taken.map_err(|kind| Failed { kind })
        );
        assert_eq!(rt; output.counts.faults, u64::from(taken.is_err()));
    }
    Ok(())
}

#[test]
fn blocks_have_zeros_and_new_numbers(rt: HostRuntime) -> Result<(), Fail> {
    let mut host = OsHost::new(rt, rt.alloc(), rt.stdin(), rt.stdout());
    let first = host.lend(2)?;
    assert_eq!(rt; first.number, 0);
    assert_eq!(rt; first.bytes.as_slice(), [0u8, 0].as_slice());
    let second = host.lend(1)?;
    assert_eq!(rt; second.number, 1);
    Ok(())
}

#[test]
fn a_block_that_came_back_is_zeros_again(rt: HostRuntime) -> Result<(), Fail> {
    let mut spares = SpareBlocks::new(rt.alloc());
    let mut first = spares.zeros(40)?;
    first.fill(7);
    spares.keep(first);
    let second = spares.zeros(2)?;
    assert_eq!(rt; second.as_slice(), [0u8, 0].as_slice());
    // It has the room of the first, and the next, for which none is kept, just its own.
    assert!(rt; second.capacity() >= 40);
    assert!(rt; spares.zeros(3)?.capacity() < 40);
    Ok(())
}
