use command_words::{Options, read_options};
use soar_sym::NoMemory;
use std::alloc::Global;
use std::test::Fail;

/// Words, and what they ask for.
const TAKEN: &[(&[&str], &str)] = &[
    (&[], ""),
    (&["--watch", "3"], "watch 3;"),
    (&["--watch=0"], "watch 0;"),
    (&["--generate", "200000"], "generate 200000;"),
    (&["--generate=1"], "generate 1;"),
    (&["--watch", "1", "--generate", "7"], "watch 1;generate 7;"),
    (&["--generate=7", "--watch=1"], "watch 1;generate 7;"),
    (&["--watch", "5", "a", "b"], "watch 5;a;b;"),
    (&["a", "--watch=5", "b"], "watch 5;a;b;"),
    (&["b", "a", "--watch", "5"], "watch 5;b;a;"),
    (&["-", "", "a b"], "-;;a b;"),
    (&["--", "--watch", "-x", "--"], "--watch;-x;--;"),
    (&["a", "--", "--generate=7"], "a;--generate=7;"),
    (&["--generate", "7", "--"], "generate 7;"),
];

/// Words that are not of the form.
const REFUSED: &[&[&str]] = &[
    &["--watch"],
    &["--watch", "--"],
    &["--watch="],
    &["--watch", ""],
    &["--watch", "6"],
    &["--watch", "03"],
    &["--watch", "+3"],
    &["--watch", "-1"],
    &["--watch", "18446744073709551617"],
    &["--watch", "3", "--watch", "3"],
    &["--watch=3", "a", "--watch", "4"],
    &["--watch3"],
    &["--generate"],
    &["--generate", "0"],
    &["--generate=007"],
    &["--generate", "200001"],
    &["--generate=7", "--generate=7"],
    &["--generate", "7", "a"],
    &["a", "--generate=7"],
    &["--generate", "7", "--", "a"],
    &["-x"],
    &["-w3"],
    &["--wat", "3"],
    &["--=3"],
    &["--help"],
    &["--version"],
];

#[test]
fn words_of_the_form_are_taken(rt: HostRuntime) -> Result<(), Fail> {
    for (words, want) in TAKEN {
        assert!(rt; shown(rt.alloc(), words)?.as_str() == *want, "{want}");
    }
    Ok(())
}

#[test]
fn other_words_are_refused(rt: HostRuntime) -> Result<(), Fail> {
    for words in REFUSED {
        assert!(rt;
            shown(rt.alloc(), words)?.as_str() == "refused",
            "{words:?}"
        );
    }
    Ok(())
}

/// What words ask for, as a text.
fn shown(alloc: Global, words: &[&str]) -> Result<String, NoMemory> {
    let mut owned = Vec::new(alloc);
    for word in words {
        owned.push(String::from_str(alloc, word)?)?;
    }
    match read_options(alloc, &owned)? {
        Some(options) => text_of(alloc, &options),
        None => Ok(String::from_str(alloc, "refused")?),
    }
}

/// Each option and each file, and a semicolon behind it.
fn text_of(alloc: Global, options: &Options) -> Result<String, NoMemory> {
    let mut text = String::new(alloc);
    if let Some(level) = options.watch {
        text.push_str(format!(in alloc; "watch {level};")?.as_str())?;
    }
    if let Some(count) = options.generate {
        text.push_str(format!(in alloc; "generate {count};")?.as_str())?;
    }
    for file in options.files.as_slice() {
        text.push_str(file.as_str())?;
        text.push_str(";")?;
    }
    Ok(text)
}
