//! The bytes of a chain, read where they lie.
use super::chain_of;
use share_count::Mint;
use std::alloc::Global;
use std::process::Abort;

// The slices with a bar between them.
fn joined(rt: &impl Abort, alloc: Global, nodes: &'static str) -> String {
    let chain = chain_of(rt, alloc, nodes, &mut Mint::new());
    let mut text = String::new(alloc);
    let mut first = true;
    for slice in chain.slices() {
        if !first {
            text.push('|').expect(rt, "memory for a text");
        }
        first = false;
        let slice = str::from_utf8(slice).ok().expect(rt, "a text");
        text.push_str(slice).expect(rt, "memory for a text");
    }
    text
}

#[test]
fn slices_are_those_of_the_nodes(rt: HostRuntime) {
    for (nodes, wanted) in [
        ("a", "a"),
        ("+", ""),
        ("ab|+|&c", "ab||c"),
        ("+|+d|", "|d|"),
    ] {
        assert!(rt; joined(&rt, rt.alloc(), nodes).as_str() == wanted);
    }
}

// What a chain says of these bytes: whether it has none, whether it has just these, and its copy.
fn says(rt: &impl Abort, alloc: Global, nodes: &'static str, bytes: &[u8]) -> (bool, bool, bool) {
    let chain = chain_of(rt, alloc, nodes, &mut Mint::new());
    let copy = chain.to_vec(alloc).expect(rt, "memory for a copy");
    (
        chain.is_empty(),
        chain.equals(bytes),
        copy.as_slice() == bytes,
    )
}

#[test]
fn chains_are_compared_with_slices(rt: HostRuntime) {
    let rows: [(&'static str, &[u8], (bool, bool, bool)); 7] = [
        ("+", b"", (true, true, true)),
        ("+|+", b"a", (true, false, false)),
        ("a|&bc|+", b"abc", (false, true, true)),
        ("a|&bc|+", b"ab", (false, false, false)),
        ("a|&bc|+", b"abcd", (false, false, false)),
        ("a|&bc|+", b"abd", (false, false, false)),
        ("a|&bc|+", b"", (false, false, false)),
    ];
    for (nodes, bytes, wanted) in rows {
        assert!(rt; says(&rt, rt.alloc(), nodes, bytes) == wanted);
    }
}

// A chain as `{:?}` prints it.
fn printed(rt: &impl Abort, alloc: Global, nodes: &'static str) -> String {
    let chain = chain_of(rt, alloc, nodes, &mut Mint::new());
    format!(in alloc; "{chain:?}").expect(rt, "memory for a text")
}

#[test]
fn chains_are_printed_as_text(rt: HostRuntime) {
    let shown = printed(&rt, rt.alloc(), "a\"|\n|+z");
    assert!(rt; shown.as_str() == r#"Chain { elements: 3, length: 4, bytes: "a\"\nz" }"#);
}
