//! Reading a question: the settings of a tray, and a claim's text.
ghost use Rattle.std.specs.Prelude.{◌≡◌, Decides};
ghost use Rattle.deciding.specs.Questions.{heading, Asked};
ghost use Rattle.checks.specs.Layers.{layer_of};

use calls::Settings;
use checks::layer_of;
use loading::{cut, read_numbers};

/// No byte behind these changes an answer: two lines of at most 18 bytes, and a text that is too long.
pub const MOST_ASKED: u64 = 1_061;

// The first line of a question.
const HEADING: &[u8] = b"sets budget depth\n";

/// Why a question is not read.
#[derive(Clone, Copy)]
pub enum Unread {
    /// The first line is another.
    Heading,
    /// The second line is not three values.
    Values,
}

/// The settings, and the text behind them.
#[derive(Clone, Copy)]
pub struct Question<'i> {
    pub settings: Settings,
    pub text: &'i [u8],
}

impl Unread {
    ghost use Rattle.deciding.specs.Questions.{unread_number};

    /// The number of the check that failed. Its place is 0.
    pub fn number(self) -> u8
        ensures { result ≡ unread_number self }
    {
        match self {
            Unread::Heading => 16,
            Unread::Values => 17,
        }
    }

    /// The layer of the check.
    pub fn layer(self) -> u8
        ensures { result ≡ layer_of (unread_number self) }
    {
        layer_of(self.number())
    }
}

// Whether a line is the first line of a question.
fn is_heading(line: &[u8]) -> bool
    ensures { Decides result (line.now ≡ heading) }
{
    line == HEADING
}

/// Reads a question. The text is all that follows the second line, a last line feed included.
pub fn read_question(input: &[u8]) -> Result<Question<'_>, Unread>
    ensures { Asked input.now result }
{
    let (first, rest) = cut(input);
    if !is_heading(first) {
        return Err(Unread::Heading);
    }
    let (line, text) = cut(rest);
    let mut values = [0u16; 3];
    if !read_numbers(line, &mut values) {
        return Err(Unread::Values);
    }
    let settings = Settings {
        sets: usize::from(values[0]),
        budget: usize::from(values[1]),
        depth: usize::from(values[2]),
    };
    Ok(Question { settings, text })
}
