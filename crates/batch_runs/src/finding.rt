//! The first line that isn't passed over.

ghost use Rattle.std.specs.Prelude.{◌≡◌, []};
ghost use Rattle.byte_streams.specs.Streams.{change};
ghost use Rattle.batch_runs.specs.FirstLines.{SeeksFirst};

use batch_lines::{Line, LineKind, LineReader};
use byte_streams::{ReadFailed, Source};

/// Reads up to the first line that isn't passed over, and nothing behind it. The reader keeps its
/// bytes where it is to be read. There is none where all lines are passed over.
pub fn find_line<S: Source>(
    source: &mut S,
    reader: &mut LineReader,
) -> Result<Option<Line>, ReadFailed>
    requires { reader.old ≡ record { lines = 0; taken = 0; kept = [] } }
    ensures { SeeksFirst (change S.state source.old source.new) reader.new result }
{
    'lines: loop {
        let next = match reader.next_line(source) {
            Ok(next) => next,
            Err(failure) => return Err(failure),
        };
        let Some(line) = next else {
            return Ok(None);
        };
        match line.kind {
            LineKind::PassedOver => {}
            _ => return Ok(Some(line)),
        }
    }
}
