ghost use Rattle.std.specs.Prelude.{◌≡◌, Some, None};
ghost use Rattle.std.specs.Option.{option_map};
ghost use Rattle.opt_top.specs.Job.{texts, file_job, job_of as job_in, is_input_name as input_name};
ghost use Rattle.opt_top.specs.JobSeen.{seen};

use std::rc::RcStr;

/// A file to read and a file to write, by their names; `-` is standard input or output.
#[derive(Clone, Copy, Debug)]
pub struct FileJob<'a> {
    pub input: &'a str,
    pub output: &'a str,
}

/// Whether a word names an input: it is `-`, or does not begin with `-`.
fn is_input_name(word: &str) -> bool
    ensures { result ≡ input_name word.now }
{
    !word.starts_with('-') || word == "-"
}

/// The job that four words give.
fn four_words<'a>(flag: &str, input: &'a str, mark: &str, output: &'a str) -> Option<FileJob<'a>>
    ensures { option_map seen result ≡ file_job flag.now input.now mark.now output.now }
{
    if flag != "--strip-debug" {
        return None;
    }
    if !is_input_name(input) {
        return None;
    }
    if mark != "-o" {
        return None;
    }
    Some(FileJob { input, output })
}

/// The job that the words of a command give.
pub fn job_of(words: &[RcStr]) -> Option<FileJob<'_>>
    ensures { option_map seen result ≡ job_in (texts words.now) }
{
    let [flag, input, mark, output] = words else {
        return None;
    };
    four_words(
        flag.as_str(),
        input.as_str(),
        mark.as_str(),
        output.as_str(),
    )
}
