use super::*;
use lexer::{Numbered, Refusal};
use slicevec::SliceVec;
use std::test::Fail;

// A text, and the count of its nodes or the number and the place of its refusal.
static TEXTS: [(&'static [u8], Result<usize, (u8, usize)>); 16] = [
    (b"program P { }", Ok(0)),
    (b"program P { void main() { break; } }", Ok(3)),
    (
        b"program P int x, y; { int f(int n) { return n * 2; } }",
        Ok(7),
    ),
    (b"program P { void main() { x = -a + b; } }", Ok(8)),
    (b"program P { void main() { print('x', 3); } }", Ok(4)),
    (
        b"program P { void main() { if (a == b) if (c == d) ; else ; } }",
        Ok(12),
    ),
    (b"", Err((5, 0))),
    (b"program P {", Err((5, 11))),
    (b"program P { } ;", Err((5, 14))),
    (b"program P { int x; }", Err((5, 17))),
    (b"program P { void main() { else ; } }", Err((5, 26))),
    (
        b"program P { void main() { f(1, a.b[2])++; } }",
        Err((5, 38)),
    ),
    (b"program P { void main() { @ } }", Err((3, 26))),
    (b"} program @", Err((3, 10))),
    (
        b"program P { void main() { x = 2147483648; } }",
        Err((4, 30)),
    ),
    (
        b"program P { void main() { while (a == b) { break; } } } }",
        Err((5, 56)),
    ),
];

// What the parser answers with so many entries lent to it, its refusals by number and place.
fn parsed(text: &[u8], memory: &mut [Node]) -> Result<usize, (u8, usize)> {
    parse(text, &mut SliceVec::new(memory)).map_err(|refusal| (
        refusal.reason.number(),
        refusal.place,
    ))
}

#[test]
fn texts(rt: HostRuntime) {
    let mut memory = [UNUSED; 16];
    for (text, expected) in TEXTS {
        assert_eq!(rt; parsed(text, &mut memory), expected);
    }
}

#[test]
fn table_holds_the_tree(rt: HostRuntime) -> Result<(), Fail> {
    let mut memory = [UNUSED; 4];
    let mut table = SliceVec::new(&mut memory);
    let count = parse(b"program P { void main() { break; } }", &mut table)?;
    assert_eq!(rt; count, 3);
    let body = Node {
        kind: NodeKind::Break { in_loop: false },
        place: 26,
        ..UNUSED
    };
    let block = Node {
        kind: NodeKind::Block,
        place: 24,
        first: Some(0),
        ..UNUSED
    };
    let method = Node {
        kind: NodeKind::Method,
        place: 17,
        first: Some(1),
        ..UNUSED
    };
    assert_eq!(rt; table.as_slice(), [body, block, method].as_slice());
    Ok(())
}

#[test]
fn full_table_is_refused_and_emptied(rt: HostRuntime) {
    let recipe = b"program P { void main() { break; } }";
    let mut memory = [UNUSED; 2];
    let mut table = SliceVec::new(&mut memory);
    let full = Err(Refusal {
        reason: Reason::TableFull,
        place: 0,
    });
    assert_eq!(rt; parse(recipe, &mut table), full);
    assert!(rt; table.is_empty());
}

// A recipe that stores a number in so many brackets.
fn bracketed(rt: &HostRuntime, count: usize) -> Result<Vec<u8>, Fail> {
    let mut text = vec![in rt.alloc()]?;
    text.extend_from_slice(b"program P { void main() { x = ")?;
    for _ in 0..count {
        text.push(b'(')?;
    }
    text.push(b'1')?;
    for _ in 0..count {
        text.push(b')')?;
    }
    text.extend_from_slice(b"; } }")?;
    Ok(text)
}

#[test]
fn deepest_brackets(rt: HostRuntime) -> Result<(), Fail> {
    let mut memory = [UNUSED; 8];
    assert_eq!(rt; parsed(&bracketed(&rt, 62)?, &mut memory), Ok(5));
    assert_eq!(rt; parsed(&bracketed(&rt, 63)?, &mut memory), Err((6, 93)));
    Ok(())
}

// What stands in front, a part and how often it stands, and what stands behind; and the result.
type Repeated = (
    &'static [u8],
    &'static [u8],
    usize,
    &'static [u8],
    Result<usize, (u8, usize)>,
);

// Long texts of repeated parts.
#[rattlefmt::skip]
static REPEATED: [Repeated; 6] = [
    // a long chain
    (b"program P { void main() { x = ", b"1+", 30000, b"1; } }", Ok(60005)),
    // a long row of elements
    (b"program P { void main() { x = a", b"[0]", 20000, b"; } }", Ok(40005)),
    // many semicolons
    (b"program P { void main() { ", b";", 60000, b" } }", Ok(60002)),
    // a text of 65,536 bytes
    (b"program P { }", b" ", 65523, b"", Ok(0)),
    // 2: a text of 65,537 bytes
    (b"program P { }", b" ", 65524, b"", Err((2, 0))),
    // 2 before 3
    (b"@", b" ", 65536, b"", Err((2, 0))),
];

// Texts and tables of so many entries.
#[rattlefmt::skip]
static TABLES: [(&'static [u8], usize, Result<usize, (u8, usize)>); 12] = [
    (b"program P { }", 0, Ok(0)),
    (b"program P { void main() { } }", 1, Err((7, 0))),
    (b"program P { void main() { } }", 2, Ok(2)),
    (b"program P { void main() { x = 1; } }", 4, Err((7, 0))),
    (b"program P { void main() { x = 1; } }", 5, Ok(5)),
    (b"program P { void main() { x = 1; } }", 0, Err((7, 0))),
    (b"program P { void main() { x = ; } }", 0, Err((5, 30))),
    (b"program P { void main() { x = 1; } } }", 4, Err((5, 37))),
    (b"program P { void main() { x = 1; } } @", 4, Err((3, 37))),
    (b"program P { void f() { } void g() { } }", 3, Err((7, 0))),
    (b"program P int a; class C { int b; } final int c = 1; { }", 0, Ok(0)),
    (b"program P { void main() { ((1)); } }", 0, Err((5, 26))),
];

#[test]
fn repeated_parts(rt: HostRuntime) -> Result<(), Fail> {
    let mut memory = vec![in rt.alloc(); UNUSED; 65_542]?;
    for (front, part, count, back, expected) in &REPEATED {
        let mut text = vec![in rt.alloc()]?;
        text.extend_from_slice(*front)?;
        for _ in 0..*count {
            text.extend_from_slice(*part)?;
        }
        text.extend_from_slice(*back)?;
        assert_eq!(rt; parsed(&text, &mut memory), *expected);
    }
    Ok(())
}

#[test]
fn small_tables(rt: HostRuntime) -> Result<(), Fail> {
    for (text, entries, expected) in &TABLES {
        let mut memory = vec![in rt.alloc(); UNUSED; *entries]?;
        assert_eq!(rt; parsed(*text, &mut memory), *expected);
    }
    Ok(())
}
