// Options, read by the crate `clap`.
ghost use Rattle.std.specs.Prelude.{◌≡◌, ◌∷◌, [], None, true, false, IfOk, IsErrOf, map, codes, string_bytes};
ghost use Rattle.std.specs.List.{list_all, flat_map};
ghost use Rattle.clap.specs.Words.{app_of, rule_of};
ghost use Rattle.sw_words.specs.Grammar.{may_stand, options_from, pieces, search_names};
ghost use Rattle.sw_words.specs.Lines.{MatchesOptions, line_of, option_rule};

use crate::commands::WordsError;
use clap::{Arg, ArgMatches};
use std::alloc::{AllocError, Global};

fn option<'a>(alloc: Global, name: &'a str) -> Arg<'a>
    ensures rule { rule_of result ≡ option_rule name.entry.now }
    ensures local { result.global ≡ false }
{
    Arg::new(alloc, name).long(name)
}

fn bare_line<'a>(alloc: Global) -> clap::Command<'a>
    ensures { app_of result ≡ line_of [] }
{
    clap::Command::new(alloc, "swiss")
        .no_binary_name(true)
        .disable_help_flag(true)
}

fn search_line<'a>(alloc: Global) -> Result<clap::Command<'a>, AllocError>
    ensures { IfOk result (λ line. app_of line ≡ line_of search_names) }
{
    bare_line(alloc)
        .arg(option(alloc, "breadth"))?
        .arg(option(alloc, "finish"))?
        .arg(option(alloc, "workers"))?
        .arg(option(alloc, "conflicts"))
}

fn workers_line<'a>(alloc: Global) -> Result<clap::Command<'a>, AllocError>
    ensures { IfOk result (λ line. app_of line ≡ line_of (codes "workers" ∷ [])) }
{
    bare_line(alloc).arg(option(alloc, "workers"))
}

/// The options of a search that the words give.
pub fn search_matches<'a>(alloc: Global, words: &'a [String]) -> Result<ArgMatches<'a>, WordsError>
    requires { list_all may_stand (map string_bytes words.now) ≡ true }
    ensures given { IfOk result (MatchesOptions search_names (flat_map pieces (map string_bytes words.entry.now))) }
    ensures usage { IsErrOf result WordsError.Usage → options_from search_names [] (flat_map pieces (map string_bytes words.entry.now)) ≡ None }
{
    let line = search_line(alloc)?;
    let matches = line.try_get_matches_from(words)?;
    Ok(matches)
}

/// The option `--workers`, where the words give it.
pub fn workers_matches<'a>(alloc: Global, words: &'a [String]) -> Result<ArgMatches<'a>, WordsError>
    requires { list_all may_stand (map string_bytes words.now) ≡ true }
    ensures given { IfOk result (MatchesOptions (codes "workers" ∷ []) (flat_map pieces (map string_bytes words.entry.now))) }
    ensures usage { IsErrOf result WordsError.Usage → options_from (codes "workers" ∷ []) [] (flat_map pieces (map string_bytes words.entry.now)) ≡ None }
{
    let line = workers_line(alloc)?;
    let matches = line.try_get_matches_from(words)?;
    Ok(matches)
}
