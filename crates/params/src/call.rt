// The calls of a script.
ghost use Rattle.std.specs.Prelude.{Some};
ghost use Rattle.params.specs.Calls.{action_word};

use std::fmt;
use terms::role::Role;

// What an end is told to do; a tick carries a message.
#[derive(Clone, Copy, Drop)]
pub enum Action<M> {
    Tick(M),
    Fetch,
    Stop,
}

// One call: which end, and what it does.
#[derive(Drop)]
pub struct Call<M> {
    pub end: Role,
    pub action: Action<M>,
}

// Shown by its word alone.
impl<M> fmt::Display for Action<M> {
    ghost output = { λ action. Some (action_word action) };

    fn fmt<W: fmt::Write>(&self, f: &mut fmt::Formatter<W>) -> fmt::Result {
        f.write_str(match self {
            Action::Tick(_) => "tick",
            Action::Fetch => "fetch",
            Action::Stop => "stop",
        })
    }
}
