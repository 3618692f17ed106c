// How a program is asked, and how much of an input was read: its arguments by what they say, and the answer of a call
// that reads by a step. There is no io here.
#![tactic(auto)]

ghost use Rattle.std.specs.Prelude.{◌≡◌};
ghost use Rattle.asking.specs.Words.{is_standard, is_summary, listen_of};

pub mod exercise;
pub mod reading;

// What `listen` is asked: which argument names the file, none being standard input, and whether for the summary alone.
#[derive(Clone, Copy)]
pub struct ListenAsked {
    pub argument: Option<usize>,
    pub summary: bool,
}

// Whether a file's name stands for standard input.
pub fn is_standard(name: &[u8]) -> bool
    ensures { result ≡ is_standard name.now }
{
    name == b"-".as_slice()
}

// Whether an argument asks for the summary alone.
pub fn is_summary(argument: &[u8]) -> bool
    ensures { result ≡ is_summary argument.now }
{
    argument == b"-s".as_slice()
}

// What `listen` is asked with so many arguments, its own name among them, and whether the first behind it is `-s`. None
// where there are too many.
#[tactic(auto, unfolding(crate::specs::Words::listen_of))]
pub fn listen_asked(count: usize, summary: bool) -> Option<ListenAsked>
    ensures { result ≡ listen_of count summary }
{
    match (count, summary) {
        (0 | 1, _) => Some(ListenAsked {
            argument: None,
            summary: false,
        }),
        (2, true) => Some(ListenAsked {
            argument: None,
            summary: true,
        }),
        (2, false) => Some(ListenAsked {
            argument: Some(1),
            summary: false,
        }),
        (3, true) => Some(ListenAsked {
            argument: Some(2),
            summary: true,
        }),
        _ => None,
    }
}
