// Where the lines of the events stand, by arithmetic.
ghost use Rattle.std.specs.Prelude.{◌≡◌, ◌≤◌, ◌<◌, ◌+◌, length};
ghost use Rattle.tmm_model.specs.Generator.{event_lines};
ghost use Rattle.demo_gen.specs.Blocks as spec;

/// So many events stand at most: each one from this number on (from 0) first erases the one that
/// came so many before it.
pub const KEPT: u32 = 60;

/// A line of an event: which one of its lines, from 0.
pub struct Place {
    /// The event, from 0.
    pub event: u32,
    /// Which of its lines, from 0.
    pub line: u32,
}

/// How many lines the events below this one take.
pub fn lines_below(event: u32) -> u32
    requires { event ≤ 1000 }
    ensures { result ≡ spec.lines_below event }
{
    3 * event + event.saturating_sub(KEPT)
}

/// Where the line stands that is this one, from 0, of all lines of events.
pub fn place_of(line: u32) -> Place
    ensures stands { spec.lines_below result.event + result.line ≡ line }
    ensures within { result.line < length (event_lines result.event) }
{
    // three lines each
    let before = 3 * KEPT;
    if line < before {
        return Place {
            event: line / 3,
            line: line % 3,
        };
    }
    // four lines each
    let behind = line - before;
    Place {
        event: KEPT + behind / 4,
        line: behind % 4,
    }
}
