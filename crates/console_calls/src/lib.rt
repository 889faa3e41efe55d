// What a line asks of the console's board, done: the call on the memory that is lent, and what it prints put behind a text.

#![tactic(auto)]

ghost use Rattle.std.specs.Prelude.{◌≡◌};
ghost use Rattle.console_calls.specs.Console.{new_board};

mod answers;
pub mod lines;

use calls::Link;
use console_board::Sizes;

// The board between two lines, apart from its memory.
#[derive(Clone, Copy, PartialEq, Eq)]
pub struct Board {
    pub link: Link,
    pub sizes: Sizes,
}

impl Board {
    // The new link, with no size fixed.
    pub fn new() -> Self
        ensures { result ≡ new_board }
    {
        Self {
            link: Link::new(),
            sizes: Sizes::auto(),
        }
    }
}
