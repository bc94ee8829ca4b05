ghost use Rattle.buffer_model.specs.Share.{IsAlone};

use crate::IoBuf;
use crate::tests::fill;
use relay_ports::Lent;
use share_count::Mint;
use std::alloc::Global;
use std::process::Abort;

#[derive(Clone, Copy)]
enum Call {
    TrimStart,
    TrimEnd,
    Append,
    Prepend,
    Advance,
    Retreat,
}

// The window from `start` up to `end` on a block with the bytes `abcdef`.
fn window(
    rt: &impl Abort,
    alloc: Global,
    start: usize,
    end: usize,
    mint: &mut Mint,
) -> IoBuf<'static>
    ensures { IsAlone result.share }
{
    let bytes = Vec::from_slice(alloc, b"abcdef").expect(rt, "memory for bytes");
    let lent = IoBuf::from_lent(alloc, Lent { number: 0, bytes }, 6, mint);
    let mut node = lent.expect(rt, "memory for a node");
    assert!(rt; start <= end && end <= 6);
    node.trim_start(start);
    node.trim_end(6 - end);
    node
}

// Makes the call with `n`, which fits.
fn make(rt: &impl Abort, node: &mut IoBuf<'static>, call: Call, n: usize) {
    match call {
        Call::TrimStart => {
            assert!(rt; n <= node.length());
            node.trim_start(n);
        }
        Call::TrimEnd => {
            assert!(rt; n <= node.length());
            node.trim_end(n);
        }
        Call::Append => {
            assert!(rt; n <= node.tailroom());
            node.append(n);
        }
        Call::Prepend => {
            assert!(rt; n <= node.headroom());
            node.prepend(n);
        }
        Call::Advance => {
            assert!(rt; n <= node.tailroom());
            node.mine().expect(rt, "a node that is alone").advance(n);
        }
        Call::Retreat => {
            assert!(rt; n <= node.headroom());
            node.mine().expect(rt, "a node that is alone").retreat(n);
        }
    }
}

// Takes both rooms into the data.
fn take_rooms(node: &mut IoBuf<'static>) {
    let before = node.headroom();
    node.prepend(before);
    let after = node.tailroom();
    node.append(after);
}

// Whether a node has these rooms on a block of these six bytes, which all become data.
fn lies(node: &mut IoBuf<'static>, block: &[u8], head: usize, tail: usize) -> bool {
    let rooms = node.headroom() == head && node.tailroom() == tail && node.capacity() == 6;
    take_rooms(node);
    rooms && node.bytes() == block
}

#[test]
fn windows_move(rt: HostRuntime) {
    // Where the window lies, the call and its number, and the rooms afterwards.
    let rows = [
        (2, 4, Call::TrimStart, 0, 2, 2),
        (2, 4, Call::TrimStart, 2, 4, 2),
        (0, 6, Call::TrimStart, 6, 6, 0),
        (3, 3, Call::TrimStart, 0, 3, 3),
        (2, 4, Call::TrimEnd, 1, 2, 3),
        (2, 4, Call::TrimEnd, 2, 2, 4),
        (0, 6, Call::TrimEnd, 6, 0, 6),
        (0, 6, Call::Append, 0, 0, 0),
        (2, 4, Call::Append, 2, 2, 0),
        (3, 3, Call::Append, 3, 3, 0),
        (2, 4, Call::Prepend, 2, 0, 2),
        (3, 3, Call::Prepend, 3, 0, 3),
    ];
    for (start, end, call, n, head, tail) in rows {
        let mut node = window(&rt, rt.alloc(), start, end, &mut Mint::new());
        make(&rt, &mut node, call, n);
        assert!(rt;
            lies(&mut node, b"abcdef", head, tail),
            "{n} at {start} up to {end}"
        );
    }
}

#[test]
fn data_move(rt: HostRuntime) {
    // Where the window lies, the call and its number, and the block and the rooms afterwards.
    let rows: [(usize, usize, Call, usize, &[u8], usize, usize); 8] = [
        (2, 4, Call::Advance, 0, b"abcdef", 2, 2),
        (2, 4, Call::Advance, 1, b"abccdf", 3, 1),
        (0, 4, Call::Advance, 2, b"ababcd", 2, 0),
        (3, 3, Call::Advance, 3, b"abcdef", 6, 0),
        (2, 6, Call::Retreat, 1, b"acdeff", 1, 1),
        (2, 6, Call::Retreat, 2, b"cdefef", 0, 2),
        (3, 3, Call::Retreat, 3, b"abcdef", 0, 6),
        (2, 4, Call::Retreat, 0, b"abcdef", 2, 2),
    ];
    for (start, end, call, n, block, head, tail) in rows {
        let mut node = window(&rt, rt.alloc(), start, end, &mut Mint::new());
        make(&rt, &mut node, call, n);
        assert!(rt;
            lies(&mut node, block, head, tail),
            "{n} at {start} up to {end}"
        );
    }
}

#[test]
fn data_are_written(rt: HostRuntime) {
    let mut node = window(&rt, rt.alloc(), 2, 4, &mut Mint::new());
    fill(&rt, &mut node);
    assert!(rt; node.bytes() == b"zz".as_slice());
    take_rooms(&mut node);
    assert!(rt; node.bytes() == b"abzzef".as_slice());
}

// Writes `y` behind the data of a node that nobody else holds, and that has room there.
fn write_behind(rt: &impl Abort, node: &mut IoBuf<'static>)
    requires { IsAlone node.old.share }
{
    assert!(rt; node.tailroom() > 0);
    node.alone_mut().tail_mut(1).fill(b'y');
}

#[test]
fn the_room_behind_the_data_is_written(rt: HostRuntime) {
    let mut node = window(&rt, rt.alloc(), 2, 4, &mut Mint::new());
    write_behind(&rt, &mut node);
    assert!(rt; node.bytes() == b"cd".as_slice());
    take_rooms(&mut node);
    assert!(rt; node.bytes() == b"abcdyf".as_slice());
}
