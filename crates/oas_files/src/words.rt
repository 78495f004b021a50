//! Which file a word means.
ghost use Rattle.std.specs.Prelude.{◌≡◌, ◌≢◌, None, Some, codes};

/// The file that a word of the command line means: `-` is none, but standard input or output. A file with that name is `./-`.
pub fn file_of_word<'a>(word: &'a str) -> Option<&'a str>
    ensures dash { word.now ≡ codes "-" → result ≡ None }
    ensures file { word.now ≢ codes "-" → result ≡ Some word.entry }
{
    if word == "-" { None } else { Some(word) }
}
