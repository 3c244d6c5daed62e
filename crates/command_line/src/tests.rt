use crate::{WordsFault, read_words};
use alpha_outside::Name;
use search_settings::Settings;
use std::alloc::Global;
use std::test::Fail;

// The words, which have blanks between them.
fn owned(alloc: Global, words: &str) -> Result<Vec<String>, Fail> {
    let mut all = Vec::new(alloc);
    if words.is_empty() {
        return Ok(all);
    }
    for word in words.split(' ') {
        all.push(String::from_str(alloc, word)?)?;
    }
    Ok(all)
}

// Whether the words are refused.
fn is_refused(alloc: Global, words: &str) -> Result<bool, Fail> {
    let words = owned(alloc, words)?;
    match read_words(alloc, words.as_slice()) {
        Err(WordsFault::Usage) => Ok(true),
        _ => Ok(false),
    }
}

fn is_named(name: Option<&Name>, text: Option<&str>) -> bool {
    match (name, text) {
        (None, None) => true,
        (Some(name), Some(text)) => name.as_bytes() == text.as_bytes(),
        _ => false,
    }
}

fn are_named(names: &[Name], texts: &[&str]) -> bool {
    names.len() == texts.len()
        && names
            .iter()
            .zip(texts)
            .all(|(name, text)| name.as_bytes() == text.as_bytes())
}

// What is to be answered.
#[derive(Drop)]
struct Wanted<'a> {
    files: &'a [&'a str],
    after: Option<&'a str>,
    trace: Option<&'a str>,
    settings: Settings,
}

// Whether the words ask for this.
fn asks(alloc: Global, words: &str, wanted: &Wanted<'_>) -> Result<bool, Fail> {
    let words = owned(alloc, words)?;
    match read_words(alloc, words.as_slice()) {
        Ok(solve) => Ok(
            are_named(solve.files.as_slice(), wanted.files)
                && is_named(solve.after.as_ref(), wanted.after)
                && is_named(solve.trace.as_ref(), wanted.trace)
                && solve.settings == wanted.settings,
        ),
        Err(_) => Ok(false),
    }
}

#[test]
fn words_that_are_refused(rt: HostRuntime) -> Result<(), Fail> {
    let rows = [
        "",
        "solve",
        "solve --limit 0 x",
        "solve --limit 1 --limit 2 x",
        "solve --help",
        "prove x",
        "solve --limit 03 x",
        "solve --limit 12345678901234 x",
        "solve --other 1 x",
    ];
    for words in rows {
        assert!(rt; is_refused(rt.alloc(), words)?);
    }
    Ok(())
}

#[test]
fn options_and_files_may_be_mixed(rt: HostRuntime) -> Result<(), Fail> {
    let wanted = Wanted {
        files: ["x", "y", "--z"].as_slice(),
        after: None,
        trace: None,
        settings: Settings {
            limit: 3,
            conflicts: 1_000_000,
            instances: 10_000_000,
        },
    };
    assert!(rt; asks(rt.alloc(), "solve x --limit=3 y -- --z", &wanted)?);
    Ok(())
}

#[test]
fn all_options_at_once(rt: HostRuntime) -> Result<(), Fail> {
    let words = "solve --limit 1 --conflicts 23 --instances 1000000000000 --after a --trace t -";
    let wanted = Wanted {
        files: ["-"].as_slice(),
        after: Some("a"),
        trace: Some("t"),
        settings: Settings {
            limit: 1,
            conflicts: 23,
            instances: 1_000_000_000_000,
        },
    };
    assert!(rt; asks(rt.alloc(), words, &wanted)?);
    Ok(())
}
