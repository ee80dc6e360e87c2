use jarray::Array;
use jdata::{Name, Primitive};
use jparse::{Act, step};
use jterm::{Adv, Con, Datum, Locative, Part, Term};
use std::alloc::Global;
use std::test::Fail;

// The table as it is printed, with a letter for each class: `$` the mark, `=` a copula, `(` and `)`, T a name in front
// of a copula, A an adverb, C a conjunction, V a verb, N a noun. A dot is no part at all.
const EDGE: &str = "$=(";

const EDGE_AVN: &str = "$=(AVN";

const CAVN: &str = "CAVN";

const ANY: &str = "$=()TACVN.";

const ROWS: [[&str; 4]; 9] = [
    [EDGE, "V", "N", ANY],
    [EDGE_AVN, "V", "V", "N"],
    [EDGE_AVN, "N", "V", "N"],
    [EDGE_AVN, "VN", "A", ANY],
    [EDGE_AVN, "VN", "C", "VN"],
    [EDGE_AVN, "VN", "V", "V"],
    [EDGE, CAVN, CAVN, ANY],
    ["TN", "=", CAVN, ANY],
    ["(", CAVN, ")", ANY],
];

fn has(cell: &str, letter: u8) -> bool {
    cell.as_bytes().contains(&letter)
}

fn wanted_row(top: [u8; 4]) -> Option<u8> {
    for row in 0..9u8 {
        let cells = ROWS[row as usize];
        if has(cells[0], top[0])
            && has(cells[1], top[1])
            && has(cells[2], top[2])
            && has(cells[3], top[3])
        {
            return Some(row);
        }
    }
    None
}

fn part(alloc: Global, letter: u8) -> Part {
    match letter {
        b'$' => Part::Mark,
        b'=' => Part::Copula { local: false },
        b'(' => Part::Left,
        b')' => Part::Right,
        b'T' => Part::Target(Locative {
            name: Name::of(Vec::new(alloc)),
            place: None,
        }),
        b'A' => Part::Adverb(Adv::Slash),
        b'C' => Part::Conj(Con::At),
        b'V' => Part::Verb {
            term: Term::Verb(Primitive::Plus),
            found: true,
        },
        _ => Part::Noun(Datum::of(Array::atom(0))),
    }
}

// These parts, the first at the end.
fn stack(alloc: Global, top: [u8; 4]) -> Result<Vec<Part>, Fail> {
    let mut parts = Vec::new(alloc);
    for letter in top.iter().rev() {
        if *letter != b'.' {
            parts.push(part(alloc, *letter))?;
        }
    }
    Ok(parts)
}

#[test]
fn rows_are_those_of_the_printed_table(rt: HostRuntime) -> Result<(), Fail> {
    let alloc = rt.alloc();
    let letters = b"$=()TACVN";
    for first in letters {
        for second in letters {
            for third in letters {
                for fourth in b"$=()TACVN." {
                    let top = [*first, *second, *third, *fourth];
                    let wanted = match wanted_row(top) {
                        Some(row) => Act::Row(row),
                        None => Act::Shift,
                    };
                    assert_eq!(rt; step(&stack(alloc, top)?, 1), wanted);
                }
            }
        }
    }
    Ok(())
}

#[test]
fn sentences_end_with_one_part(rt: HostRuntime) -> Result<(), Fail> {
    let alloc = rt.alloc();
    let rows = [
        (*b"$...", Act::Done),
        (*b"$N..", Act::Done),
        (*b"$V..", Act::Done),
        (*b"$A..", Act::Done),
        (*b"$C..", Act::Done),
        (*b"$T..", Act::Syntax),
        (*b"$)..", Act::Syntax),
        (*b"$=..", Act::Syntax),
        (*b"N...", Act::Syntax),
        (*b"(N..", Act::Syntax),
        (*b"$N).", Act::Syntax),
        (*b"....", Act::Syntax),
    ];
    for (top, wanted) in rows {
        assert_eq!(rt; step(&stack(alloc, top)?, 0), wanted);
    }
    assert_eq!(rt; step(&stack(alloc, *b"$N..")?, 1), Act::Shift);
    Ok(())
}
