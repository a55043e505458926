// What can be read of an end between two calls.
ghost use Rattle.std.specs.Prelude.{◌≡◌};
ghost use Rattle.ends.specs.Ends.{end_value};
ghost use Rattle.states.specs.States.{status_of};

use super::end::End;
use states::state::Status;

impl End {
    // The state by its name, and once out the release.
    pub fn status(&self) -> Status
        ensures { result ≡ status_of (end_value self.now).state }
    {
        self.state.status()
    }
}
