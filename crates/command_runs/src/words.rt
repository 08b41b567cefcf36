//! The words that the program is given.
ghost use Rattle.std.specs.Prelude.{◌≡◌, ◌≢◌, ◌⊎◌, map, string_bytes, IfOk, IfErr};
ghost use Rattle.std.specs.IoError.{error_kind};
ghost use Rattle.std.specs.Vec.Iter.{into_iter_items};
ghost use Rattle.std.specs.declared.io.ErrorKind.TheVariants.{OutOfMemory};
ghost use Rattle.command_line.specs.Answered.{IsAnswered};
ghost use Rattle.command_line.specs.Asked.{HasTiles, IsAsked};
ghost use Rattle.command_line.specs.Commands.{faults_of, named_by};
ghost use Rattle.command_runs.specs.Words.{not_utf8_text};

use byte_streams::Line;
use city_json::Str;
use command_line::{Parsed, Paths, parse_words};
use std::alloc::{AllocError, Global};
use std::env::Args;
use std::io::{self, ErrorKind};

/// What is said where a word is not UTF-8.
const NOT_UTF8: &str = "citymerge: a word is not UTF-8\n";

/// What the words of the program ask for, its name first. Words that are not UTF-8 are wrong use.
pub fn parse_args(alloc: Global, args: io::Result<Args>) -> Parsed
    ensures asked { IfOk args (λ args.
        IsAsked (named_by (map string_bytes (into_iter_items args))) result) }
    ensures answered { IfOk args (λ args.
        IsAnswered (faults_of (map string_bytes (into_iter_items args)))
        (named_by (map string_bytes (into_iter_items args))) result) }
    ensures tiles { HasTiles result }
    ensures memory { IfErr args (λ e. error_kind e ≡ OutOfMemory → result ≡ Parsed.Memory) }
    ensures not_utf8 { IfErr args (λ e. error_kind e ≢ OutOfMemory
        → (result ≡ Parsed.Usage not_utf8_text) ⊎ (result ≡ Parsed.Memory)) }
{
    match args {
        Ok(args) => match words_of(alloc, args) {
            Ok(words) => parse_words(alloc, &words),
            Err(AllocError) => Parsed::Memory,
        },
        Err(e) if e.kind() == ErrorKind::OutOfMemory => Parsed::Memory,
        Err(_) => match not_utf8(alloc) {
            Ok(text) => Parsed::Usage(text),
            Err(_) => Parsed::Memory,
        },
    }
}

fn words_of(alloc: Global, args: Args) -> Result<Paths, AllocError>
    ensures { IfOk result (λ words. words ≡ map string_bytes (into_iter_items args)) }
{
    let mut words = Paths::new(alloc);
    for word in args {
        let Ok(word) = Str::read(alloc, word.as_str()) else {
            return Err(AllocError);
        };
        words.push(word)?;
    }
    Ok(words)
}

fn not_utf8(alloc: Global) -> Result<Line, AllocError>
    ensures { IfOk result (λ line. line ≡ not_utf8_text) }
{
    Ok(Line::from_vec(NOT_UTF8.as_bytes().to_vec(alloc)?))
}
