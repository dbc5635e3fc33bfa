// What the arguments of the program ask for.
#![tactic(auto)]

ghost use Rattle.std.specs.Prelude.{◌≡◌};
ghost use Rattle.requests.specs.Requests.{requested};

#[derive(Clone, Copy, Debug, PartialEq, Eq)]
pub enum Request {
    // The groups of standard input.
    Groups,
    Help,
    Version,
    // Nothing that the program has.
    Unknown,
}

// What so many arguments ask for, the program's name among them; `first` is the one behind the name.
#[tactic(auto, unfolding(crate::specs::Requests::requested))]
pub fn request_of(count: usize, first: &[u8]) -> Request
    ensures { result ≡ requested count first.now }
{
    if count < 2 {
        Request::Groups
    } else if count == 2 && first == b"--help".as_slice() {
        Request::Help
    } else if count == 2 && first == b"--version".as_slice() {
        Request::Version
    } else {
        Request::Unknown
    }
}
