//! What the matches of a command line ask for.

ghost use Rattle.std.specs.Prelude.{◌≡◌, map, option_map, IfOk, IfErr, None, Some, codes};
ghost use Rattle.clap.specs.Words.{all_of, first_of, found_of, rows_of};
ghost use Rattle.command_line.specs.Numbers.{number_or};
ghost use Rattle.command_line.specs.Requests.{files_of, request_of, settings_of};
ghost use Rattle.command_line.specs.declared.words.WordsFault.TheVariants.{Usage};

use crate::WordsFault;
use crate::number::number_of;
use alpha_outside::{List, Name, OutOfMemory};
use clap::ArgMatches;
use search_settings::Settings;
use std::alloc::Global;

// The most files that may be named.
const MOST_FILES: usize = 65_536;

/// A program is to be solved.
#[derive(Debug, Drop)]
pub struct Solve {
    /// The files of the program, in the order of the words. `-` is the standard input.
    pub files: List<Name>,
    /// The file with the sets after which the search goes on.
    pub after: Option<Name>,
    /// The file into which the journal goes.
    pub trace: Option<Name>,
    /// How far the search may go.
    pub settings: Settings,
}

/// What the matches ask for.
pub(crate) fn request_of(alloc: Global, matches: &ArgMatches<'_>) -> Result<Solve, WordsFault>
    ensures request { IfOk result (λ r. request_of (rows_of (found_of matches.now)) ≡ Some r) }
    ensures usage { IfErr result (λ e. e ≡ Usage → request_of (rows_of (found_of matches.now)) ≡ None) }
{
    let Some(settings) = settings_of(matches) else {
        return Err(WordsFault::Usage);
    };
    let Some(files) = files_of(matches) else {
        return Err(WordsFault::Usage);
    };
    match solve_of(alloc, matches, settings, files) {
        Ok(solve) => Ok(solve),
        Err(OutOfMemory) => Err(WordsFault::OutOfMemory),
    }
}

// The request with these settings and files.
fn solve_of(
    alloc: Global,
    matches: &ArgMatches<'_>,
    settings: Settings,
    files: &[&str],
) -> Result<Solve, OutOfMemory>
    ensures { IfOk result (λ r. r ≡ record {
      files = map (λ f. f.now) files.now;
      after = first_of (codes "after") (rows_of (found_of matches.now));
      trace = first_of (codes "trace") (rows_of (found_of matches.now));
      settings = settings;
    }) }
{
    let files = names_of(alloc, files)?;
    let after = name_of(alloc, text_of(matches, "after"))?;
    let trace = name_of(alloc, text_of(matches, "trace"))?;
    Ok(Solve {
        files,
        after,
        trace,
        settings,
    })
}

// How far the search may go.
fn settings_of(matches: &ArgMatches<'_>) -> Option<Settings>
    ensures { result ≡ settings_of (rows_of (found_of matches.now)) }
{
    let defaults = Settings::defaults();
    let limit = number_or(matches, "limit", defaults.limit)?;
    let conflicts = number_or(matches, "conflicts", defaults.conflicts)?;
    let instances = number_or(matches, "instances", defaults.instances)?;
    Some(Settings {
        limit,
        conflicts,
        instances,
    })
}

// The files, of which there may be `MOST_FILES`.
fn files_of<'m, 'a>(matches: &'m ArgMatches<'a>) -> Option<&'m [&'a str]>
    ensures { option_map (λ s. map (λ f. f.now) s.now) result ≡ files_of (rows_of (found_of matches.now)) }
{
    let files = texts_of(matches, "files")?;
    if files.len() <= MOST_FILES {
        Some(files)
    } else {
        None
    }
}

// The number of an option, and where it isn't given this one.
fn number_or(matches: &ArgMatches<'_>, id: &str, default: u64) -> Option<u64>
    ensures { result ≡ number_or default (first_of id.now (rows_of (found_of matches.now))) }
{
    match text_of(matches, id) {
        None => Some(default),
        Some(text) => number_of(text),
    }
}

// The value of an option.
fn text_of<'a>(matches: &ArgMatches<'a>, id: &str) -> Option<&'a str>
    ensures { option_map (λ s. s.now) result ≡ first_of id.now (rows_of (found_of matches.now)) }
{
    matches.get_str(id)
}

// All values of an argument.
fn texts_of<'m, 'a>(matches: &'m ArgMatches<'a>, id: &str) -> Option<&'m [&'a str]>
    ensures { option_map (λ s. map (λ v. v.now) s.now) result ≡ all_of id.now (rows_of (found_of matches.now)) }
{
    matches.get_strs(id)
}

// The text as a name.
fn name_of(alloc: Global, text: Option<&str>) -> Result<Option<Name>, OutOfMemory>
    ensures { IfOk result (λ n. n ≡ option_map (λ s. s.now) text.entry) }
{
    match text {
        None => Ok(None),
        Some(text) => {
            let name = Name::from_bytes(alloc, text.as_bytes())?;
            Ok(Some(name))
        }
    }
}

// The texts as names.
fn names_of(alloc: Global, texts: &[&str]) -> Result<List<Name>, OutOfMemory>
    ensures { IfOk result (λ l. l ≡ map (λ s. s.now) texts.now) }
{
    let mut names = List::new(alloc);
    for text in texts {
        let name = Name::from_bytes(alloc, text.as_bytes())?;
        names.push(name)?;
    }
    Ok(names)
}
