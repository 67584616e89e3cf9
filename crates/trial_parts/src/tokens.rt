use lang_base::Stop;
use std::alloc::{AllocError, Global};
use std::test::Fail;
use syntax_tokens::{TokenKind, Tokens, tokens};

fn word_of(kind: TokenKind) -> &'static str {
    match kind {
        TokenKind::Name => "name",
        TokenKind::Int => "int",
        TokenKind::Text => "text",
        TokenKind::Symbol(symbol) => symbol.text(),
        TokenKind::Keyword(keyword) => keyword.text(),
    }
}

/// `kind from to line:col` for each token, and the end place.
fn listed(alloc: Global, read: &Tokens) -> Result<String, AllocError> {
    let mut out = String::new(alloc);
    for token in read.list.as_slice() {
        let word = word_of(token.kind);
        let from = token.from;
        let to = token.to;
        let place = token.place;
        out.push_str(format!(in alloc; "{word} {from} {to} {place}, ")?.as_str())?;
    }
    let end = read.end;
    out.push_str(format!(in alloc; "end {end}")?.as_str())?;
    Ok(out)
}

/// What a text comes to: its tokens, or the refusal.
fn reported(alloc: Global, text: &[u8]) -> Result<String, AllocError> {
    if text.len() > 1048576 {
        return String::from_str(alloc, "too long");
    }
    match tokens(alloc, text) {
        Ok(read) => listed(alloc, &read),
        Err(Stop::Refused(refusal)) => format!(in alloc; "{refusal}"),
        Err(Stop::NoMemory) => Err(AllocError),
    }
}

/// A text, and its tokens.
const CUTS: &[(&str, &str)] = &[
    ("", "end 1:1"),
    ("\n", "end 2:1"),
    ("a\r\n\tb ", "name 0 1 1:1, name 4 5 2:2, end 2:4"),
    (
        "class Root foreach_parts Class",
        "class 0 5 1:1, Root 6 10 1:7, foreach_parts 11 24 1:12, name 25 30 1:26, end 1:31",
    ),
    (
        "cobegin_nd cobegin_n in_ _1",
        "cobegin_nd 0 10 1:1, name 11 20 1:12, name 21 24 1:22, name 25 27 1:26, end 1:28",
    ),
    (
        "0 12ab 2147483647",
        "int 0 1 1:1, int 2 4 1:3, name 4 6 1:5, int 7 17 1:8, end 1:18",
    ),
    (
        "<==>=!===",
        "<= 0 2 1:1, = 2 3 1:3, >= 3 5 1:4, != 5 7 1:6, == 7 9 1:8, end 1:10",
    ),
    ("|||&&", "|| 0 2 1:1, | 2 3 1:3, && 3 5 1:4, end 1:6"),
    (
        "{}()[]",
        "{ 0 1 1:1, } 1 2 1:2, ( 2 3 1:3, ) 3 4 1:4, [ 4 5 1:5, ] 5 6 1:6, end 1:7",
    ),
    (
        "<>+-*%",
        "< 0 1 1:1, > 1 2 1:2, + 2 3 1:3, - 3 4 1:4, * 4 5 1:5, % 5 6 1:6, end 1:7",
    ),
    (
        "!;,.:#?",
        "! 0 1 1:1, ; 1 2 1:2, , 2 3 1:3, . 3 4 1:4, : 4 5 1:5, # 5 6 1:6, ? 6 7 1:7, end 1:8",
    ),
    (
        "a / b */",
        "name 0 1 1:1, / 2 3 1:3, name 4 5 1:5, * 6 7 1:7, / 7 8 1:8, end 1:9",
    ),
    ("a // b\nc // d", "name 0 1 1:1, name 7 8 2:1, end 2:7"),
    (
        "/**/a/*\n***/b/* /* */c",
        "name 4 5 1:5, name 12 13 2:5, name 21 22 2:14, end 2:15",
    ),
    (
        "// \u{e9}\n/* \u{20ac} */ a \"\u{1f600}\" b",
        "name 16 17 2:11, text 18 24 2:13, name 25 26 2:20, end 2:21",
    ),
    (
        "\"\" \"a\\n\\t\\\"\\\\\" \"//\"",
        "text 0 2 1:1, text 3 14 1:4, text 15 19 1:16, end 1:20",
    ),
    ("\"a\tb\rc\"", "text 0 7 1:1, end 1:8"),
];

#[test]
fn texts_are_cut(rt: HostRuntime) -> Result<(), Fail> {
    for &(text, wanted) in CUTS {
        assert_eq!(rt; reported(rt.alloc(), text.as_bytes())?.as_str(), wanted);
    }
    Ok(())
}

/// A text, and its first fault.
const FAULTS: &[(&str, &str)] = &[
    ("&", "1:1 syntax"),
    ("a && & b", "1:6 syntax"),
    ("a\n @", "2:2 syntax"),
    ("\0", "1:1 syntax"),
    ("a \u{e9}", "1:3 syntax"),
    ("\x0b", "1:1 syntax"),
    ("007", "1:1 number"),
    ("00", "1:1 number"),
    ("a 2147483648", "1:3 number"),
    ("99999999999999999999999999999999999999999", "1:1 number"),
    ("; ; 007 &", "1:5 number"),
    ("& 007", "1:1 syntax"),
    ("a /* b\n *", "1:3 syntax"),
    ("/*/", "1:1 syntax"),
    ("\"ab", "1:1 syntax"),
    ("\"\u{e9}\u{e9}", "1:1 syntax"),
    (" \"ab\\", "1:5 syntax"),
    ("\"ab\n\"", "1:4 syntax"),
    ("\"a\\x\"", "1:3 syntax"),
    ("\"a\\\n\"", "1:3 syntax"),
];

#[test]
fn first_faults_are_reported(rt: HostRuntime) -> Result<(), Fail> {
    for &(text, wanted) in FAULTS {
        assert_eq!(rt; reported(rt.alloc(), text.as_bytes())?.as_str(), wanted);
    }
    Ok(())
}

/// Bytes that are no text, and their first fault.
const NO_TEXTS: &[(&[u8], &str)] = &[
    (b"a \xff", "1:3 syntax"),
    (b"a /* \xff", "1:3 syntax"),
    (b"a /* \xff */ /*", "1:6 syntax"),
    (b"/* a\n\xe2\x82*/", "2:1 syntax"),
    (b"// \xc0\xaf", "1:4 syntax"),
    (b"// a\n// \xed\xa0\x80", "2:4 syntax"),
    (b"// \xff\n// \xff", "1:4 syntax"),
    (b"\"a\xff\\x\"", "1:3 syntax"),
    (b"\"a\\x\xff\"", "1:3 syntax"),
    (b"\"\xe2\x82\"", "1:2 syntax"),
    (b"\"a\xe2\x82", "1:3 syntax"),
    (b"\"a\xff", "1:3 syntax"),
];

#[test]
fn bytes_that_are_no_text_are_reported(rt: HostRuntime) -> Result<(), Fail> {
    for &(text, wanted) in NO_TEXTS {
        assert_eq!(rt; reported(rt.alloc(), text)?.as_str(), wanted);
    }
    Ok(())
}

#[test]
fn the_longest_text_is_cut(rt: HostRuntime) -> Result<(), Fail> {
    let text = vec![in rt.alloc(); b'('; 1048576]?;
    assert!(rt; text.len() <= 1048576);
    match tokens(rt.alloc(), text.as_slice()) {
        Ok(read) => {
            assert_eq!(rt; read.list.len(), 1048576);
            assert_eq!(rt; read.end.col, 1048577);
        }
        Err(_) => assert!(rt; false),
    }
    Ok(())
}
