// Which line the outcome of each call prints. No `From`: outcomes and lines are types of other crates, and most lines name operands too. A match
// in each, since only the refusals' arm is common to them.
ghost use Rattle.std.specs.Prelude.{◌≡◌};
ghost use Rattle.lines.specs.Outcomes.{open_line, start_line, step_line, look_line, inspect_line};

use model::types::{
    Fault, Inspecting, Key, Looking, Opening, Progress, Starting, Stepping, Version,
};
use printer::types::Line;

pub fn of_open(keys: u32, versions: u32, processes: u32, limit: u32, outcome: Opening) -> Line
    ensures { result ≡ open_line keys versions processes limit outcome }
{
    match outcome {
        Err(refusal) => Line::Refused(refusal),
        Ok(()) => Line::Opened {
            keys,
            versions,
            processes,
            limit,
        },
    }
}

pub fn of_start(process: u32, outcome: Starting) -> Line
    ensures { result ≡ start_line process outcome }
{
    match outcome {
        Err(refusal) => Line::Refused(refusal),
        Ok(tick) => Line::Started { process, tick },
    }
}

pub fn of_step(process: u32, outcome: Stepping) -> Line
    ensures { result ≡ step_line process outcome }
{
    match outcome {
        Err(refusal) => Line::Refused(refusal),
        Ok(Progress::Moved(tick)) => Line::Stepped { process, tick },
        Ok(Progress::Waited(tick)) => Line::Waited { process, tick },
        Ok(Progress::Shown(tick, _)) => Line::Stepped { process, tick },
        Ok(Progress::Finished(finish)) => Line::Done { process, finish },
    }
}

pub fn of_look(key: Key, back: u32, outcome: Looking) -> Line
    ensures { result ≡ look_line key back outcome }
{
    match outcome {
        Err(refusal) => Line::Refused(refusal),
        Ok(Version { value, timestamp }) => Line::Looked {
            key,
            back,
            value,
            timestamp,
        },
    }
}

pub fn of_inspect(outcome: Inspecting) -> Line
    ensures { result ≡ inspect_line outcome }
{
    match outcome {
        Err(refusal) => Line::Refused(refusal),
        Ok(None) => Line::Sound,
        Ok(Some(Fault { level, node })) => Line::Fault { level, node },
    }
}
