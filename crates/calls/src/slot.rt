// Where a process stands in the state.
ghost use Rattle.std.specs.Prelude.{◌≡◌, ◌%◌};
ghost use Rattle.model.specs.Layout.{limits};

use model::types::State;

// A process's place in the array. A number past the last process has some place too: it is refused.
pub fn slot(process: u32) -> usize
    ensures { result ≡ process % limits.processes }
{
    (process % State::PROCESSES) as usize
}
