//! In which file of a source a line stands, where the lines of all files are counted through.
ghost use Rattle.std.specs.Prelude.{◌≡◌, ◌≤◌, length};
ghost use Rattle.tz_types.specs.declared.limit.TheConstants.{MOST_BYTES, MOST_FILES};
ghost use Rattle.tz_types.specs.Source.{bytes_together};
ghost use Rattle.tz_specs.specs.Line.{lines_of};
ghost use Rattle.tz_specs.specs.Reads.{line_in, place_in};

use tz_text::next_line;
use tz_types::Text;

/// How many lines a text has.
fn line_count(text: &[u8]) -> u32
    requires { length text.now ≤ MOST_BYTES }
    ensures { result ≡ length (lines_of text.now) }
{
    let mut count = 0;
    let mut rest = text;
    while !rest.is_empty() {
        let (_, later) = next_line(rest);
        count += 1;
        rest = later;
    }
    count
}

/// The number of the file that has a line, and the line's number in it, where the files are numbered from 1.
fn line_in(files: &[Text], line: u32) -> (u32, u32)
    requires few_files { length files.now ≤ MOST_FILES }
    requires few_bytes { bytes_together files.now ≤ MOST_BYTES }
    ensures { result ≡ line_in 1 files.now line }
{
    let mut file = 1;
    let mut left = line;
    for text in files {
        let count = line_count(text.as_slice());
        if left <= count {
            return (file, left);
        }
        left -= count;
        file += 1;
    }
    (file, left)
}

/// The same where one file alone has the number 0.
pub fn place_in(files: &[Text], line: u32) -> (u32, u32)
    requires few_files { length files.now ≤ MOST_FILES }
    requires few_bytes { bytes_together files.now ≤ MOST_BYTES }
    ensures { result ≡ place_in files.now line }
{
    match files {
        [_] => (0, line),
        _ => line_in(files, line),
    }
}
