//! What the words of the command line ask for.
ghost use Rattle.std.specs.Prelude.{◌≡◌, ◌≤◌, map, string_bytes, IfSome};
ghost use Rattle.dt_model.specs.Texts.{number_of};
ghost use Rattle.dyntensor.specs.Commands.{file_named, from_one_to_most, manifest_named, sample_numbered, schemas_named};

use dt_model::FILE_NAME_LIMIT;
use dt_text::read_index;
use sample_world::MOST_SAMPLE;
use script_read::FileName;

/// The file of the words of a command and a name of 1 to 255 bytes.
fn file_named(command: &str, words: &[String]) -> Option<FileName>
    ensures value { result ≡ file_named command.now (map string_bytes words.now) }
{
    match words {
        [word, name] => {
            if word.as_str() == command && name.len() >= 1 && name.len() <= FILE_NAME_LIMIT {
                Some(FileName::new(name.as_str()))
            } else {
                None
            }
        }
        _ => None,
    }
}

/// The manifest of `run` and a name.
pub fn manifest_named(words: &[String]) -> Option<FileName>
    ensures value { result ≡ manifest_named (map string_bytes words.now) }
{
    file_named("run", words)
}

/// The file of schemas of `check` and a name.
pub fn schemas_named(words: &[String]) -> Option<FileName>
    ensures value { result ≡ schemas_named (map string_bytes words.now) }
{
    file_named("check", words)
}

/// The number of a word of digits, if it is from 1 to `MOST_SAMPLE`.
fn number_from(word: &[u8]) -> Option<u32>
    ensures value { result ≡ from_one_to_most (number_of word.now) }
    ensures few { IfSome result (λ number. number ≤ MOST_SAMPLE) }
{
    let number = read_index(word).ok()?;
    if 1 <= number && number <= MOST_SAMPLE {
        Some(number)
    } else {
        None
    }
}

/// The number of `sample` and one more word of at most 255 bytes.
pub fn sample_numbered(words: &[String]) -> Option<u32>
    ensures value { result ≡ sample_numbered (map string_bytes words.now) }
    ensures few { IfSome result (λ number. number ≤ MOST_SAMPLE) }
{
    match words {
        [word, number] => {
            if word.as_str() == "sample" && number.len() <= FILE_NAME_LIMIT {
                number_from(number.as_bytes())
            } else {
                None
            }
        }
        _ => None,
    }
}
