//! What the words of a command ask for.

ghost use Rattle.std.specs.Prelude.{◌≡◌, map, Some, None, MatchOption};
ghost use Rattle.std.specs.String.{string_bytes};
ghost use Rattle.ktrun.specs.Words.{is_name, is_one_worker, file_to_run};

/// The file that the words ask to run: those of `run NAME` or `run NAME --workers 1`.
pub fn file_to_run(words: &[String]) -> Option<&str>
    ensures { MatchOption result (file_to_run (map string_bytes words.now) ≡ None)
        (λ name. file_to_run (map string_bytes words.now) ≡ Some name.now) }
{
    match words {
        [mode, name, options @ ..]
            if mode.as_str() == "run" && is_name(name.as_str()) && is_one_worker(options) => {
            Some(name.as_str())
        }
        _ => None,
    }
}

/// Whether the text can name a file: it isn't empty, and isn't an option.
fn is_name(text: &str) -> bool
    ensures { result ≡ is_name text.now }
{
    match text.as_bytes().first() {
        Some(first) => *first != b'-',
        None => false,
    }
}

/// Whether the options are none or `--workers 1`.
fn is_one_worker(options: &[String]) -> bool
    ensures { result ≡ is_one_worker (map string_bytes options.now) }
{
    match options {
        [] => true,
        [option, count] => option.as_str() == "--workers" && count.as_str() == "1",
        _ => false,
    }
}
