//! Texts and their tokens.
use soar_lex::{LexFault, Token, TokenKind, lex};
use soar_sym::{List, Sym, SymTable};
use std::alloc::{AllocError, Global};
use std::test::Fail;

/// Texts and what is told of them: each token with its kind as a letter, what it says, its first byte and the one behind it, in digits from `0` to `9` and then from `a` on; or the fault.
const CUT: &[(&[u8], &str)] = &[
    (b"", ""),
    (b" \t\r\n\x0c", ""),
    (b"-->", "arrow:03 "),
    (b"<<", "open:02 "),
    (b">>", "close:02 "),
    (b"<", "sign0:01 "),
    (b">", "sign1:01 "),
    (b"<=", "sign2:02 "),
    (b">=", "sign3:02 "),
    (b"<>", "sign4:02 "),
    (b"<=>", "sign5:03 "),
    (b"=", "sign6:01 "),
    (b"+", "sign7:01 "),
    (b"-", "sign8:01 "),
    (b"<x>", "var x:03 "),
    (b"<->", "var -:03 "),
    (b"12", "12:02 "),
    (b"+5", "5:02 "),
    (b"-007", "-7:04 "),
    (b"9223372036854775807", "9223372036854775807:0j "),
    (b"-9223372036854775808", "-9223372036854775808:0k "),
    (b"--", "bare --:02 "),
    (b"1e", "bare 1e:02 "),
    (b"1-2", "bare 1-2:03 "),
    (b"S1", "bare S1:02 "),
    (b"a*b?c", "bare a*b?c:05 "),
    (b"||", "word :02 "),
    (b"|a b|", "word a b:05 "),
    (b"|12|", "word 12:04 "),
    (b"|a\\|b\\\\c|", "word a|b\\c:09 "),
    (b"|\xc3\xa9|", "word é:04 "),
    (b"\"\"", "doc :02 "),
    (b"\"a\\\"b|\"", "doc a\"b|:07 "),
    (b"a|b|", "bare a:01 word b:14 "),
    (b"^name", "^:01 bare name:15 "),
    (b"a\nb", "bare a:01 bare b:23 "),
    (b"1.", "1:01 .:12 "),
    (b"1.x", "1:01 .:12 bare x:23 "),
    (b"x.5", "bare x:01 .:12 5:23 "),
    (b"red |red| <red>", "bare red:03 word red:49 var red:af "),
    (
        b"(<s> ^size > 3)",
        "(:01 var s:14 ^:56 bare size:6a sign1:bc 3:de ):ef ",
    ),
    (b"a # b\n c", "bare a:01 bare c:78 "),
    (b"|a # b| \"# c\"", "word a # b:07 doc # c:8d "),
    (b"a#", "bare a:01 "),
    (b"# |\n#\"\xff\n1 # 2.5\x0c3\n4", "1:89 4:ij "),
    (b"#", ""),
];

/// Texts and their faults.
const FAULTS: &[(&[u8], LexFault)] = &[
    (b"<a<b", LexFault::BadByte(0)),
    (b"<<x", LexFault::BadByte(0)),
    (b"<x>>", LexFault::BadByte(0)),
    (b"  a<b", LexFault::BadByte(3)),
    (b"a'", LexFault::BadByte(1)),
    (b"a \xff", LexFault::BadByte(2)),
    (b"a\xc3\xa9", LexFault::BadByte(1)),
    (b"|a\xffb|", LexFault::BadByte(2)),
    (b"|a\\n|", LexFault::BadByte(2)),
    (b"|a\\\"|", LexFault::BadByte(2)),
    (b"\"a\\|\"", LexFault::BadByte(2)),
    (b"x |\\\\\\n\xff|", LexFault::BadByte(5)),
    (b"x |\xff\\n|", LexFault::BadByte(3)),
    (b"# |a\n|#", LexFault::OpenString(5)),
    (b"# 2.5\n2.5", LexFault::FloatNumber(6)),
    (b"|", LexFault::OpenString(0)),
    (b" |a\"", LexFault::OpenString(1)),
    (b"|a\\|", LexFault::OpenString(0)),
    (b"|a\\n", LexFault::OpenString(0)),
    (b"9223372036854775808", LexFault::WideNumber(0)),
    (b" -9223372036854775809", LexFault::WideNumber(1)),
    (b"99999999999999999999.5", LexFault::FloatNumber(0)),
    (b"x 1.5", LexFault::FloatNumber(2)),
    (b"1e5", LexFault::FloatNumber(0)),
    (b"-1E+5", LexFault::FloatNumber(0)),
];

#[test]
fn texts_are_cut_into_their_tokens(rt: HostRuntime) -> Result<(), Fail> {
    for (text, want) in CUT {
        assert!(rt; is_cut(rt.alloc(), text, want)?, "where {want} is wanted");
    }
    Ok(())
}

#[test]
fn faults_show_at_their_bytes(rt: HostRuntime) -> Result<(), Fail> {
    for (text, want) in FAULTS {
        assert!(rt;
            is_refused(rt.alloc(), text, *want)?,
            "where {want} is wanted"
        );
    }
    Ok(())
}

#[test]
fn words_before_a_fault_join_the_table(rt: HostRuntime) -> Result<(), Fail> {
    let mut table = SymTable::new(rt.alloc())?;
    let refused = cut(
        rt.alloc(),
        &mut table,
        b"red \"doc\" <x> # green\n|blue| red ' green",
    )
    .is_err();
    assert!(rt;
        refused
            && is_word(&mut table, "red", 24)
            && is_word(&mut table, "x", 25)
            && is_word(&mut table, "blue", 26)
            && is_word(&mut table, "green", 27)
    );
    Ok(())
}

/// Whether this is the word of a text.
fn is_word(table: &mut SymTable, text: &str, word: u32) -> bool {
    match table.intern(text) {
        Ok(symbol) => symbol == Sym::Word(word),
        Err(_) => false,
    }
}

/// Whether a text is cut into these tokens.
fn is_cut(alloc: Global, text: &[u8], want: &str) -> Result<bool, LexFault> {
    let Ok(mut table) = SymTable::new(alloc) else {
        return Err(LexFault::NoMemory);
    };
    let tokens = cut(alloc, &mut table, text)?;
    match told(alloc, &table, tokens.as_slice()) {
        Ok(told) => Ok(told.as_str() == want),
        Err(_) => Err(LexFault::NoMemory),
    }
}

/// Whether a text is refused so.
fn is_refused(alloc: Global, text: &[u8], want: LexFault) -> Result<bool, LexFault> {
    let Ok(mut table) = SymTable::new(alloc) else {
        return Err(LexFault::NoMemory);
    };
    match cut(alloc, &mut table, text) {
        Ok(_) => Ok(false),
        Err(fault) => Ok(fault == want),
    }
}

fn cut(alloc: Global, table: &mut SymTable, bytes: &[u8]) -> Result<List<Token>, LexFault> {
    match List::from_slice(alloc, bytes) {
        Ok(text) if text.len() < 1000 => lex(alloc, table, &text),
        _ => Err(LexFault::NoMemory),
    }
}

/// What is told of tokens.
fn told(alloc: Global, table: &SymTable, tokens: &[Token]) -> Result<String, AllocError> {
    let mut told = String::new(alloc);
    for token in tokens {
        tell_kind(&mut told, alloc, table, &token.kind)?;
        told.push(':')?;
        told.push(digit(token.start))?;
        told.push(digit(token.end))?;
        told.push(' ')?;
    }
    Ok(told)
}

fn tell_kind(
    told: &mut String,
    alloc: Global,
    table: &SymTable,
    kind: &TokenKind,
) -> Result<(), AllocError> {
    match kind {
        TokenKind::Mark(byte) => told.push(char::from(*byte)),
        TokenKind::Arrow => told.push_str("arrow"),
        TokenKind::OpenSet => told.push_str("open"),
        TokenKind::CloseSet => told.push_str("close"),
        TokenKind::Sign(place) => tell(told, "sign", format!(in alloc; "{place}")?.as_str()),
        TokenKind::Var(name) => tell(told, "var ", text_of(table, *name)),
        TokenKind::Int(value) => told.push_str(format!(in alloc; "{value}")?.as_str()),
        TokenKind::Word(word, true) => tell(told, "bare ", text_of(table, *word)),
        TokenKind::Word(word, false) => tell(told, "word ", text_of(table, *word)),
        TokenKind::Doc(text) => tell(told, "doc ", text.as_str()),
    }
}

fn tell(told: &mut String, kind: &str, text: &str) -> Result<(), AllocError> {
    told.push_str(kind)?;
    told.push_str(text)
}

/// The text of a word that the table has.
fn text_of(table: &SymTable, symbol: Sym) -> &str {
    match symbol {
        Sym::Word(word) if word < table.word_count() => table.text(word),
        _ => "?",
    }
}

/// A place as a digit, from `a` on where it is above 9.
fn digit(place: u32) -> char {
    match char::from_digit(place, 36) {
        Some(digit) => digit,
        None => '?',
    }
}
