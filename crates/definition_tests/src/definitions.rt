use jcontrol::Act;
use jdata::Trouble;
use jexplicit::{Definition, Form, Need, definition, need};
use jwords::words;
use std::alloc::Global;
use std::test::Fail;

fn sentence(made: &Definition, number: u32) -> &[u8] {
    let words = made.words(number);
    match (words.first(), words.last()) {
        (Some(first), Some(last)) => made
            .line(number)
            .get(first.start as usize..last.end as usize)
            .unwrap_or(b"?"),
        _ => b"?",
    }
}

// The sentences of a valence in brackets, and the names of its loops.
fn show(made: &Definition, dyadic: bool, out: &mut Vec<u8>) -> Result<(), Fail> {
    for word in made.prepared(dyadic) {
        match word.act {
            Act::Sentence { number, .. } => {
                out.push(b'[')?;
                out.extend_from_slice(sentence(made, number))?;
                out.push(b']')?;
            }
            Act::First { word, .. } => {
                out.extend_from_slice(made.item_name(word).unwrap_or(b"-"))?;
                out.push(b':')?;
            }
            _ => {}
        }
    }
    Ok(())
}

// The monad, and behind a bar the dyad, or the fault. A valence that has lines begins with a star.
fn read(alloc: Global, form: Form, text: &[u8]) -> Result<Vec<u8>, Fail> {
    let mut out = Vec::new(alloc);
    if text.len() > 1_000_000 {
        return Ok(out);
    }
    match definition(alloc, form, text) {
        Ok(made) => {
            if made.has(false) {
                out.push(b'*')?;
            }
            show(&made, false, &mut out)?;
            out.push(b'|')?;
            if made.has(true) {
                out.push(b'*')?;
            }
            show(&made, true, &mut out)?;
        }
        Err(Trouble::Fault(fault)) => out.extend_from_slice(fault.text().as_bytes())?,
        Err(Trouble::NoMemory) => out.extend_from_slice(b"no memory")?,
    }
    Ok(out)
}

const TEXTS: [(Form, &str, &str); 23] = [
    (Form::Monad, "", "|"),
    (Form::Monad, "y + 1", "*[y + 1]|"),
    (Form::Monad, "\n", "*|"),
    (Form::Monad, "a\n : \nb\n:\nc", "*[a]|*[b][:][c]"),
    (Form::Monad, ":\nx", "|*[x]"),
    (Form::Dyad, "x\ny NB. two", "|*[x][y NB. two]"),
    (
        Form::Monad,
        "NB. none\nif. y do. {{ if. x }} 1 else. 2 end. 3",
        "*[y][{{ if. x }} 1][2][3]|",
    ),
    (
        Form::Monad,
        "for_i. y do. i end. for. y do. 2 end.",
        "*[y]i:[i][y]-:[2]|",
    ),
    (Form::Monad, "assert.\ny", "*[y]|"),
    (Form::Direct, " x + y ", "|*[x + y]"),
    (Form::Direct, "{{ x + u }} y", "*[{{ x + u }} y]|"),
    (Form::Direct, "", "|"),
    (Form::Direct, "u y", "nonce error"),
    (Form::Direct, ")n text", "nonce error"),
    (Form::Direct, "y )", "*[y )]|"),
    (Form::Direct, "u end.", "nonce error"),
    (Form::Direct, "u end. '", "open quote"),
    (Form::Monad, "end.\n'", "open quote"),
    (Form::Monad, "a_\n'", "spelling error"),
    (Form::Monad, "1x\n'", "ill-formed number"),
    (Form::Monad, "}} {{", "control error"),
    (Form::Monad, "1 {{ 2\n}} 3", "control error"),
    (Form::Monad, "1\n:\nbreak.", "control error"),
];

#[test]
fn texts_are_read(rt: HostRuntime) -> Result<(), Fail> {
    for (form, text, wanted) in TEXTS {
        let shown = read(rt.alloc(), form, text.as_bytes())?;
        assert_eq!(rt; shown.as_slice(), wanted.as_bytes());
    }
    Ok(())
}

#[test]
fn a_long_line_is_beyond_the_limit(rt: HostRuntime) -> Result<(), Fail> {
    let mut text = vec![in rt.alloc(); b' '; 65_537]?;
    text.extend_from_slice(b"\n'")?;
    let shown = read(rt.alloc(), Form::Dyad, &text)?;
    assert_eq!(rt; shown.as_slice(), b"limit error".as_slice());
    let shown = read(rt.alloc(), Form::Dyad, text.get(1..).unwrap_or(b""))?;
    assert_eq!(rt; shown.as_slice(), b"open quote".as_slice());
    Ok(())
}

fn need_of(alloc: Global, line: &str) -> Result<Need, Fail> {
    if line.len() > 65_536 {
        return Ok(Need::Nothing);
    }
    let words = words(alloc, line.as_bytes())?;
    if words.len() > 65_536 {
        return Ok(Need::Nothing);
    }
    Ok(need(&words, line.as_bytes()))
}

const NEEDS: [(&str, Need); 9] = [
    ("f =: 3 : 0", Need::Lines { bodies: 1 }),
    ("(0 : 0) , 04 : 00", Need::Lines { bodies: 2 }),
    ("0 : 0 : 0", Need::Lines { bodies: 1 }),
    ("(3) : 0", Need::Nothing),
    ("2 3 : 0", Need::Nothing),
    ("5 : 0", Need::Nothing),
    ("{{ 3 : 0 }} 4", Need::Nothing),
    ("(0 : 0) {{ {{ y }}", Need::Brace { depth: 1 }),
    ("3 : 'y' NB. 3 : 0", Need::Nothing),
];

#[test]
fn sentences_take_lines(rt: HostRuntime) -> Result<(), Fail> {
    for (line, wanted) in NEEDS {
        let took = need_of(rt.alloc(), line)?;
        assert!(rt; took == wanted);
    }
    Ok(())
}
